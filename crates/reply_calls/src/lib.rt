// The answer of a call: by the shape of what it tells, its numbers or its text.
#![tactic(auto)]

ghost use Rattle.std.specs.Prelude.{◌≡◌, ◌≤◌, length};
ghost use Rattle.outcomes.specs.Outcomes.{answer_of};
ghost use Rattle.fields.specs.Answers.{Puts};
ghost use Rattle.replies.specs.Replies.{bytes_text, listed_word, ticked_text, written_text, question_shape, shape_of, call_text};
ghost use Rattle.replies.specs.Sending.{Sends, fits_in, reply_text};
ghost use Rattle.replies.specs.Fitting.{Fits};
ghost use Rattle.reply_calls.specs.Counted.{room_for, comparisons_text, counted_text};

use model::{Call, Question};
use outcomes::{ACCEPTED, Outcome};
use replies::{OUT, Shape};

// The most numbers of an answer, and the largest number that has a decimal.
const MOST: usize = 1024;

const LARGEST: usize = 65535;

// The comparisons that a question reports, or `-` for none, and the byte that ends them, before the place `at`: the place where they begin.
fn put_comparisons(out: &mut [u8; OUT], at: usize, comparisons: Option<u16>, end: u8) -> usize
    ensures { Puts (room_for comparisons) (comparisons_text comparisons end) out.old at result out.new }
{
    match comparisons {
        Some(n) => decimals::put_number(out, at, n, end),
        None => reply_lines::put_bytes(out, at, &[b'-', end]),
    }
}

// How many numbers a question found, the comparisons that it reports, and the numbers.
fn put_counted(out: &mut [u8; OUT], count: u16, comparisons: Option<u16>, numbers: &[u16]) -> usize
    requires { length numbers.now ≤ 1024 }
    ensures { Sends (counted_text count comparisons numbers.now) out.old result out.new }
{
    let i = decimals::put_numbers(out, OUT, numbers);
    let end = decimals::end_before(numbers.len());
    let j = put_comparisons(out, i, comparisons, end);
    decimals::put_number(out, j, count, b'\t')
}

// Those of a day, a span, a cover or a days question.
fn put_listed(out: &mut [u8; OUT], count: u16, comparisons: Option<u16>, numbers: &[u16]) -> usize
    requires { length numbers.now ≤ 1024 }
    ensures { Sends (bytes_text listed_word (counted_text count comparisons numbers.now)) out.old result out.new }
{
    let at = put_counted(out, count, comparisons, numbers);
    reply_lines::put_bytes(out, at, b"listed\t")
}

// Those of a mask, with the number of days ticked.
fn put_ticked(out: &mut [u8; OUT], ticked: u16, count: u16, numbers: &[u16]) -> usize
    requires { length numbers.now ≤ 1024 }
    ensures { Sends (ticked_text ticked count numbers.now) out.old result out.new }
{
    let i = put_counted(out, count, None, numbers);
    let j = decimals::put_number(out, i, ticked, b'\t');
    reply_lines::put_bytes(out, j, b"ticked\t")
}

// A written text.
fn put_written(out: &mut [u8; OUT], count: u16, text: &[u8]) -> usize
    requires { length text.now ≤ 65536 }
    ensures { Sends (written_text count text.now) out.old result out.new }
{
    let i = reply_lines::put_bytes(out, OUT, text);
    let j = decimals::put_number(out, i, count, b'\n');
    reply_lines::put_bytes(out, j, b"text\t")
}

// The shape of a question's answer, and of any call's.
fn question_shape(question: Question) -> Shape
    ensures { result ≡ question_shape question }
{
    match question {
        Question::Day(_) | Question::Span(_, _) | Question::Cover(_) => Shape::Listed,
        Question::Days => Shape::Several,
        Question::Mask(_, _) => Shape::Ticked,
    }
}

fn shape_of(call: Call) -> Shape
    ensures { result ≡ shape_of call }
{
    match call {
        Call::Enter(_) | Call::Amend(_) | Call::Strike(_) | Call::TakeBack | Call::Publish(_) =>
            Shape::Ok,
        Call::Write => Shape::Text,
        Call::Ask(question) => question_shape(question),
    }
}

// Whether every number of an answer has a decimal, and its lists have as many places as it says.
#[tactic(auto, unfolding(replies::specs::Sending::fits_in))]
fn fits(o: Outcome, numbers: usize, text: usize) -> bool
    ensures { result ≡ fits_in o numbers text }
{
    o.count <= MOST
        && o.count <= numbers
        && o.comparisons <= LARGEST
        && o.ticked <= LARGEST
        && o.length <= LARGEST
        && o.length <= text
}

// The answer of a call that fits its lists.
fn put_fitting(out: &mut [u8; OUT], call: Call, o: Outcome, numbers: &[u16], text: &[u8]) -> usize
    requires { Fits (answer_of o numbers.now text.now) }
    ensures { Sends (call_text call (answer_of o numbers.now text.now)) out.old result out.new }
{
    if o.refusal != ACCEPTED {
        return reply_lines::put_refused(out, o.refusal);
    }
    let k = o.count;
    let n = o.length;
    match shape_of(call) {
        Shape::Ok => reply_lines::put_ok(out),
        Shape::Text => put_written(out, n as u16, &text[..n]),
        Shape::Listed => put_listed(out, k as u16, Some(o.comparisons as u16), &numbers[..k]),
        Shape::Several => put_listed(out, k as u16, None, &numbers[..k]),
        Shape::Ticked => put_ticked(out, o.ticked as u16, k as u16, &numbers[..k]),
    }
}

// The answer of any call, and nothing where it does not fit its lists.
pub fn put_reply(out: &mut [u8; OUT], call: Call, o: Outcome, numbers: &[u16], text: &[u8]) -> usize
    ensures { Sends (reply_text call o numbers.now text.now) out.old result out.new }
{
    if fits(o, numbers.len(), text.len()) {
        return put_fitting(out, call, o, numbers, text);
    }
    reply_lines::put_bytes(out, OUT, b"")
}
