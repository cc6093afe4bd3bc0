// A spell in seven words of 16 bits, and back: number, candidate, first day, last day, the kind of its urgency, and the low and
// high 16 bits of the urgency's value.
#![tactic(auto)]

ghost use Rattle.std.specs.Prelude.{◌≡◌, ℕ, List, length, drop};
ghost use Rattle.packing.specs.Blocks.{parts, Put, PutAll};
ghost use Rattle.packing.specs.Layout.{spell_width};
ghost use Rattle.packing.specs.Words.{kind_of, value_of, urgency_of, low, high, joined, spell_words, spell_of, spell_long};

use spell::{Spell, Urgency};

// ---- The layout of a standing list's words: specs/Layout.antt has the same by name

// The words of a spell, and of an entry of the journal.
pub const SPELL: usize = 7;

pub const ENTRY: usize = SPELL + 2;

// The words of all spells, and of the journal behind them.
pub const SPELLS: usize = 1024 * SPELL;

pub const JOURNAL: usize = 64 * ENTRY;

// Where the last entry of a full journal begins in it.
pub const LAST_ENTRY: usize = 63 * ENTRY;

// Where the count and the depth stand, and the words in all.
pub const COUNT: usize = SPELLS + JOURNAL;

pub const DEPTH: usize = COUNT + 1;

pub const STANDING: usize = DEPTH + 1;

// ---- An urgency in two numbers

// 0 for a grade, 1 for a reading.
fn kind_of(u: Urgency) -> u16
    ensures { result ≡ kind_of u }
{
    match u {
        Urgency::Grade(_) => 0,
        Urgency::Reading(_) => 1,
    }
}

// The grade, or the reading's bits.
fn value_of(u: Urgency) -> u32
    ensures { result ≡ value_of u }
{
    match u {
        Urgency::Grade(g) => u32::from(g),
        Urgency::Reading(x) => readings::bits_of(x),
    }
}

// The urgency of a kind and a value. A grade above 65,535, and any other kind, is the grade 0, which no check passes.
pub fn urgency_of(kind: u16, value: u32) -> Urgency
    ensures { result ≡ urgency_of kind value }
{
    match kind {
        0 => Urgency::Grade(u16::try_from(value).unwrap_or(0)),
        1 => Urgency::Reading(readings::reading_of(value)),
        _ => Urgency::Grade(0),
    }
}

fn low_of(value: u32) -> u16
    ensures { result ≡ low value }
{
    (value % 65536) as u16
}

fn high_of(value: u32) -> u16
    ensures { result ≡ high value }
{
    (value / 65536) as u16
}

fn join(a: u16, b: u16) -> u32
    ensures { result ≡ joined a b }
{
    u32::from(b) * 65536 + u32::from(a)
}

// ---- Values in words

// A value in words of 16 bits, of which each value of the type takes the same number.
pub trait Packed: Copy {
    ghost WIDTH: { ℕ };

    // Its words, and the value of any words.
    ghost words_of: { Self → List ℕ };

    ghost of_words: { List ℕ → Self };

    const WIDTH: usize;

    // Its words at the place `at`; where there is no room for them, nothing is written.
    fn put(self, out: &mut [u16], at: usize)
        ensures { Put words_of of_words self at out.old out.new };

    // The value of the words at the place `at`.
    fn at(words: &[u16], at: usize) -> Self
        ensures { result ≡ of_words (drop at words.now) };

    ghost long: { (x : Self) → length (words_of x) ≡ WIDTH };
}

// The words of all values in the first places; where there is no room for them, nothing is written.
pub fn put_all<T: Packed>(values: &[T], out: &mut [u16])
    ensures { PutAll T.words_of T.of_words values.now out.old out.new }
{
    let Some(n) = values.len().checked_mul(T::WIDTH) else {
        return;
    };
    if out.len() < n {
        return;
    }
    for (i, x) in values.iter().enumerate() {
        x.put(out, T::WIDTH * i);
    }
}

// The values of the first words.
pub fn all_at<T: Packed, const N: usize>(words: &[u16]) -> [T; N]
    ensures { result ≡ parts T.WIDTH T.of_words N words.now }
{
    // Until it is read each place holds the value of no words, which is one for all words: filling the places then costs no copy of them.
    let mut values = [T::at(&[], 0); N];
    for (i, x) in values.iter_mut().enumerate() {
        *x = T::at(words, T::WIDTH.saturating_mul(i));
    }
    values
}
// ---- A spell in words

impl Packed for Spell {
    ghost WIDTH = { spell_width };

    ghost words_of = { spell_words };

    ghost of_words = { spell_of };

    const WIDTH: usize = SPELL;

    fn put(self, out: &mut [u16], at: usize) {
        let Some(last) = out.len().checked_sub(SPELL) else {
            return;
        };
        if last < at {
            return;
        }
        let value = value_of(self.urgency);
        out[at..at + SPELL].copy_from_slice(&[
            self.number,
            self.candidate,
            self.first,
            self.last,
            kind_of(self.urgency),
            low_of(value),
            high_of(value),
        ]);
    }

    // Where there are not seven words, it is a spell of zeros.
    fn at(words: &[u16], at: usize) -> Spell {
        let Some(last) = words.len().checked_sub(SPELL) else {
            return spell_checks::blank();
        };
        if last < at {
            return spell_checks::blank();
        }
        let value = join(words[at + 5], words[at + 6]);
        Spell {
            number: words[at],
            candidate: words[at + 1],
            first: words[at + 2],
            last: words[at + 3],
            urgency: urgency_of(words[at + 4], value),
        }
    }

    ghost long = { spell_long };
}
