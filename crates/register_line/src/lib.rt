// A line of a register text read, field by field.
#![tactic(auto)]

ghost use Rattle.std.specs.Prelude.{◌≡◌, drop};
ghost use Rattle.fields.specs.Answers.{answer_in, Reads};
ghost use Rattle.register.specs.Text.{read_letter, read_value, read_urgency, read_line};

use spell::{Spell, Urgency};

// The letter G or C at `at` and its tab.
fn read_letter(text: &[u8], at: usize) -> Option<(u8, usize)>
    ensures { answer_in text.now result ≡ read_letter (drop at text.now) }
{
    let b = *text.get(at)?;
    if b != b'G' && b != b'C' {
        return None;
    }
    let i = at + 1;
    if !field_bytes::is_at(text, i, b'\t') {
        return None;
    }
    Some((b, i + 1))
}

// The value after the letter and its LF: a grade after G, a reading's bits after C.
fn read_value(text: &[u8], at: usize, letter: u8) -> Option<(Urgency, usize)>
    ensures { Reads text.now result (read_value letter (drop at text.now)) }
{
    if letter == b'G' {
        let (g, next) = decimals::read_number(text, at, b'\n')?;
        return Some((Urgency::Grade(g), next));
    }
    let (n, next) = hexadecimals::read_bits(text, at, b'\n')?;
    let x = readings::reading_of(n as u32);
    Some((Urgency::Reading(x), next))
}

// The letter at `at` and the value after it.
fn read_urgency(text: &[u8], at: usize) -> Option<(Urgency, usize)>
    ensures { Reads text.now result (read_urgency (drop at text.now)) }
{
    let (letter, i) = read_letter(text, at)?;
    read_value(text, i, letter)
}

// The line at `at`, field by field; a field that can't be read ends it.
pub fn read_line(text: &[u8], at: usize) -> Option<(Spell, usize)>
    ensures { Reads text.now result (read_line (drop at text.now)) }
{
    let Some((number, i)) = decimals::read_number(text, at, b'\t') else {
        return None;
    };
    let Some((candidate, j)) = decimals::read_number(text, i, b'\t') else {
        return None;
    };
    let Some((first, k)) = decimals::read_number(text, j, b'\t') else {
        return None;
    };
    let Some((last, m)) = decimals::read_number(text, k, b'\t') else {
        return None;
    };
    let Some((urgency, next)) = read_urgency(text, m) else {
        return None;
    };
    let s = Spell {
        number,
        candidate,
        first,
        last,
        urgency,
    };
    Some((s, next))
}
