// The fields of a request's line, by their layout: what they ask.
#![tactic(auto)]

ghost use Rattle.std.specs.Prelude.{◌≡◌, drop};
ghost use Rattle.requests.specs.Words.{spell_call, asked_with, number_call, limit_of};
ghost use Rattle.requests.specs.Parsing.{Asks, if_ended, length_request};

use model::{Call, Question};
use requests::{Layout, LengthWord, NumberWord, Request, SpellWord};
use spell::Spell;

// The largest room, and the largest length of a text that is announced: ten digits.
const LARGEST_ROOM: u64 = 65536;

const LARGEST_LENGTH: u64 = 9999999999;

// A request where the line ends at `end`.
pub fn if_ended(line: &[u8], end: usize, request: Request) -> Request
    ensures { result ≡ if_ended request (drop end line.now) }
{
    if end < line.len() {
        Request::Malformed
    } else {
        request
    }
}

// The call of a word with a spell's fields.
fn spell_call(w: SpellWord, s: Spell) -> Call
    ensures { result ≡ spell_call w s }
{
    match w {
        SpellWord::Enter => Call::Enter(s),
        SpellWord::Amend => Call::Amend(s),
    }
}

pub fn spell_asked(line: &[u8], at: usize, w: SpellWord) -> Request
    ensures { Asks (Layout.Spell w) (drop at line.now) result }
{
    let Some((s, next)) = register_line::read_line(line, at) else {
        return Request::Malformed;
    };
    if_ended(line, next, Request::Call(spell_call(w, s), 0))
}

// A question of one number with that number.
fn asked_with(question: Question, n: u16) -> Question
    ensures { result ≡ asked_with question n }
{
    match question {
        Question::Day(_) => Question::Day(n),
        Question::Cover(_) => Question::Cover(n),
        other => other,
    }
}

// The call of a word with a number.
fn number_call(w: NumberWord, n: u16) -> Call
    ensures { result ≡ number_call w n }
{
    match w {
        NumberWord::Strike => Call::Strike(n),
        NumberWord::Publish => Call::Publish(n),
        NumberWord::Ask(question) => Call::Ask(asked_with(question, n)),
    }
}

pub fn number_asked(line: &[u8], at: usize, w: NumberWord) -> Request
    ensures { Asks (Layout.Number w) (drop at line.now) result }
{
    let Some((n, next)) = decimals::read_number(line, at, b'\n') else {
        return Request::Malformed;
    };
    if_ended(line, next, Request::Call(number_call(w, n), 0))
}

pub fn pair_asked(line: &[u8], at: usize) -> Request
    ensures { Asks Layout.Pair (drop at line.now) result }
{
    let Some((a, i)) = decimals::read_number(line, at, b'\t') else {
        return Request::Malformed;
    };
    let Some((b, next)) = decimals::read_number(line, i, b'\n') else {
        return Request::Malformed;
    };
    if_ended(
        line,
        next,
        Request::Call(Call::Ask(Question::Span(a, b)), 0),
    )
}

pub fn mask_asked(line: &[u8], at: usize) -> Request
    ensures { Asks Layout.Mask (drop at line.now) result }
{
    let Some((base, i)) = decimals::read_number(line, at, b'\t') else {
        return Request::Malformed;
    };
    let Some((mask, next)) = hexadecimals::read_mask(line, i, b'\n') else {
        return Request::Malformed;
    };
    if_ended(
        line,
        next,
        Request::Call(Call::Ask(Question::Mask(base, mask)), 0),
    )
}

// The largest decimal of a word.
fn limit_of(w: LengthWord) -> u64
    ensures { result ≡ limit_of w }
{
    match w {
        LengthWord::Room => LARGEST_ROOM,
        LengthWord::Read => LARGEST_LENGTH,
    }
}

// What a decimal asks.
fn length_request(w: LengthWord, n: u64) -> Request
    ensures { result ≡ length_request w n }
{
    match w {
        LengthWord::Room => Request::Room(n as usize),
        LengthWord::Read => Request::Read(n),
    }
}

pub fn length_asked(line: &[u8], at: usize, w: LengthWord) -> Request
    ensures { Asks (Layout.Length w) (drop at line.now) result }
{
    let Some((n, next)) = decimals::read_length(line, at, b'\n', limit_of(w)) else {
        return Request::Malformed;
    };
    if_ended(line, next, length_request(w, n))
}
