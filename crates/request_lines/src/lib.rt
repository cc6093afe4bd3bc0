// A request's line: what it asks, and how many bytes follow it.
#![tactic(auto)]

ghost use Rattle.std.specs.Prelude.{◌≡◌, ◌<◌, length, take, drop};
ghost use Rattle.fields.specs.Fields.{read_number};
ghost use Rattle.requests.specs.Words.{alone_call};
ghost use Rattle.requests.specs.Requests.{last_day, read_days};
ghost use Rattle.requests.specs.Parsing.{Parses, Announces, following_in};
ghost use Rattle.request_lines.specs.Clauses.{after, ReadsDays};

use model::{Call, Question};
use requests::{AloneWord, Head, Layout, LengthWord, Request};

// The most bytes of a request's line, its LF among them.
const LONGEST_LINE: usize = 65536;

// The last day, at the place k of the list.
fn last_day(line: &[u8], at: usize, days: &mut [u16], k: usize) -> Request
    requires { k < length days.old }
    ensures { ReadsDays (after (take k days.old) (last_day (read_number 10 (drop at line.now)))) days.old result days.new }
{
    let Some((d, next)) = decimals::read_number(line, at, b'\n') else {
        return Request::Malformed;
    };
    if next < line.len() {
        return Request::Malformed;
    }
    days[k] = d;
    Request::Call(Call::Ask(Question::Days), k + 1)
}

// The days from `start` on, each into its place.
fn read_days(line: &[u8], start: usize, days: &mut [u16]) -> Request
    ensures { ReadsDays (read_days (length days.old) (drop start line.now)) days.old result days.new }
{
    let mut at = start;
    for k in 0..days.len() {
        let Some((d, next)) = decimals::read_number(line, at, b'\t') else {
            return last_day(line, at, days, k);
        };
        days[k] = d;
        at = next;
    }
    Request::Malformed
}

// The call of a word that stands alone.
fn alone_call(w: AloneWord) -> Call
    ensures { result ≡ alone_call w }
{
    match w {
        AloneWord::TakeBack => Call::TakeBack,
        AloneWord::Write => Call::Write,
        AloneWord::Days => Call::Ask(Question::Days),
    }
}

// What a line asks. The days of a days question go into the first places of the list that is lent for them.
pub fn parse(line: &[u8], days: &mut [u16]) -> Request
    ensures { Parses line.now days.old result days.new }
{
    if line.len() > LONGEST_LINE {
        return Request::Malformed;
    }
    let Head { layout, at } = request_words::head_of(line);
    match layout {
        Layout::Alone(w) => { request_fields::if_ended(line, at, Request::Call(alone_call(w), 0)) }
        Layout::Spell(w) => request_fields::spell_asked(line, at, w),
        Layout::Number(w) => request_fields::number_asked(line, at, w),
        Layout::Pair => request_fields::pair_asked(line, at),
        Layout::Mask => request_fields::mask_asked(line, at),
        Layout::Days => read_days(line, at, days),
        Layout::Length(w) => request_fields::length_asked(line, at, w),
        Layout::Unknown => Request::Malformed,
    }
}

// ---- The text after a line

// The length of the text that a request announces.
fn following(request: Request) -> u64
    ensures { result ≡ following_in request }
{
    match request {
        Request::Read(n) => n,
        _ => 0,
    }
}

// How many bytes follow a line: those of the text that a `read` announces. Only the word `read` is tried, so that a line need not be
// taken apart to know where its request ends.
pub fn text_length(line: &[u8]) -> u64
    ensures { Announces line.now result }
{
    if line.len() > LONGEST_LINE {
        return 0;
    }
    if !request_words::begins(line, b"read\t") {
        return 0;
    }
    following(request_fields::length_asked(line, 5, LengthWord::Read))
}
