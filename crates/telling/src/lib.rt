// The functions that make what a call tells beside its lent lists: every outcome is made here.
#![tactic(auto)]

ghost use Rattle.std.specs.Prelude.{◌≡◌};
ghost use Rattle.refusal.specs.Numbers.{number_in};
ghost use Rattle.register.specs.Answers.{written_in};
ghost use Rattle.stabbing.specs.Answer.{told_in};
ghost use Rattle.outcomes.specs.Outcomes.{told_of, found_of, wrote_of, ticking_of};

use outcomes::Outcome;
use refusal::Refusal;
use stabbing::Listed;

// A number and no more: a refusal's, or 0.
pub fn numbered(number: u16) -> Outcome
    ensures { result ≡ told_of number }
{
    Outcome {
        refusal: number,
        count: 0,
        comparisons: 0,
        length: 0,
        ticked: 0,
    }
}

// Whether a call was accepted, and no more.
pub fn told(answer: Result<(), Refusal>) -> Outcome
    ensures { result ≡ told_of (number_in answer) }
{
    numbered(refusal::number_in(answer))
}

// What a question found in the index, by its numbers: a refusal's, or 0, how many are listed, and the comparisons.
pub fn listing(number: u16, count: usize, comparisons: usize) -> Outcome
    ensures { result ≡ found_of record { refusal = number; count = count; comparisons = comparisons } }
{
    Outcome {
        count,
        comparisons,
        ..numbered(number)
    }
}

// What a question found in the index.
pub fn found(answer: Result<Listed, Refusal>) -> Outcome
    ensures { result ≡ found_of (told_in answer) }
{
    match answer {
        Ok(l) => listing(0, l.count, l.comparisons),
        Err(refusal) => told(Err(refusal)),
    }
}

// What was written of a text, by its numbers: a refusal's, or 0, and the length.
pub fn writing(number: u16, length: usize) -> Outcome
    ensures { result ≡ wrote_of record { refusal = number; length = length } }
{
    Outcome {
        length,
        ..numbered(number)
    }
}

// What was written of a text: its length.
pub fn wrote(answer: Result<usize, Refusal>) -> Outcome
    ensures { result ≡ wrote_of (written_in answer) }
{
    match answer {
        Ok(length) => writing(0, length),
        Err(refusal) => told(Err(refusal)),
    }
}

// What several days gave, of which so many are ticked: told where it is accepted.
pub fn ticking(o: Outcome, n: usize) -> Outcome
    ensures { result ≡ ticking_of o n }
{
    if o.refusal == 0 {
        Outcome { ticked: n, ..o }
    } else {
        o
    }
}
