// The questions of document 01 and the mask of document 02: the published index is read where it lies.
#![tactic(auto)]

ghost use Rattle.std.specs.Prelude.{ℕ, List};
ghost use Rattle.published_index.specs.Index.{Published};
ghost use Rattle.questions.specs.Asked.{Asked};

use model::Question;
use outcomes::Outcome;
use stabbing::INDEX;
use telling::{found, ticking, told};

// Day d: the spells with first ≤ d ≤ last.
pub fn day(index: &[u16; INDEX], d: u16, numbers: &mut [u16]) -> Outcome
    requires { Published index.now }
    ensures { (days : List ℕ) → Asked index.now (Question.Day d) days numbers.old result numbers.new }
{
    found(stabbing_query::day(index, d, numbers))
}

// The span from a to b: the spells with first ≤ b and last ≥ a.
pub fn span(index: &[u16; INDEX], a: u16, b: u16, numbers: &mut [u16]) -> Outcome
    requires { Published index.now }
    ensures { (days : List ℕ) → Asked index.now (Question.Span a b) days numbers.old result numbers.new }
{
    found(stabbing_query::span(index, a, b, numbers))
}

// The cover of a published spell: the spells with first ≤ its first and last ≥ its last.
pub fn cover(index: &[u16; INDEX], number: u16, numbers: &mut [u16]) -> Outcome
    requires { Published index.now }
    ensures { (days : List ℕ) → Asked index.now (Question.Cover number) days numbers.old result numbers.new }
{
    found(stabbing_query::cover(index, number, numbers))
}

// Several days: the spells that contain at least one of them.
pub fn days(index: &[u16; INDEX], days: &[u16], numbers: &mut [u16]) -> Outcome
    requires { Published index.now }
    ensures { Asked index.now Question.Days days.now numbers.old result numbers.new }
{
    found(stabbing_days::days(index, days, numbers))
}

// The ticked days of a base day and a mask (document 02's review calendar): the spells that contain at least one of them, and how many days
// are ticked.
pub fn mask(index: &[u16; INDEX], base: u16, mask: u64, numbers: &mut [u16]) -> Outcome
    requires { Published index.now }
    ensures { (days : List ℕ) → Asked index.now (Question.Mask base mask) days numbers.old result numbers.new }
{
    let mut ticked = [0u16; 64];
    match mask_days::ticked(base, mask, &mut ticked) {
        Ok(n) => ticking(days(index, &ticked[..n], numbers), n),
        Err(refusal) => told(Err(refusal)),
    }
}

// Any of the questions; the days are those of a days question.
pub fn ask(index: &[u16; INDEX], question: Question, dates: &[u16], numbers: &mut [u16]) -> Outcome
    requires { Published index.now }
    ensures { Asked index.now question dates.now numbers.old result numbers.new }
{
    match question {
        Question::Day(d) => day(index, d, numbers),
        Question::Span(a, b) => span(index, a, b, numbers),
        Question::Cover(number) => cover(index, number, numbers),
        Question::Days => days(index, dates, numbers),
        Question::Mask(base, bits) => mask(index, base, bits, numbers),
    }
}
