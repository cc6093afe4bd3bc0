// The call of a code.
#![tactic(auto)]

ghost use Rattle.std.specs.Prelude.{◌≡◌};
ghost use Rattle.coding.specs.Coded.{low16, urgency_of, spell_of, call_of, next_of, question_number};

use coding::Code;
use model::{Call, Question};
use spell::{Spell, Urgency};

// A word's lowest 16 bits.
pub fn low(x: u64) -> u16
    ensures { result ≡ low16 x }
{
    (x % 65536) as u16
}

fn urgency_of(kind: u64, value: u64) -> Urgency
    ensures { result ≡ urgency_of kind value }
{
    if kind == 0 {
        Urgency::Grade(low(value))
    } else {
        Urgency::Reading(readings::reading_of((value % 4294967296) as u32))
    }
}

fn spell_of(c: Code) -> Spell
    ensures { result ≡ spell_of c }
{
    Spell {
        number: c.number,
        candidate: c.candidate,
        first: c.first,
        last: c.last,
        urgency: urgency_of(c.kind, c.value),
    }
}

// None where no call has that number.
#[tactic(auto, unfolding(coding::specs::Coded::call_of))]
fn call_of(c: Code) -> Option<Call>
    ensures { result ≡ call_of c }
{
    match c.op {
        1 => Some(Call::Enter(spell_of(c))),
        2 => Some(Call::Amend(spell_of(c))),
        3 => Some(Call::Strike(c.number)),
        4 => Some(Call::TakeBack),
        5 => Some(Call::Publish(c.number)),
        6 => Some(Call::Write),
        7 => Some(Call::Ask(Question::Day(c.first))),
        8 => Some(Call::Ask(Question::Span(c.first, c.last))),
        9 => Some(Call::Ask(Question::Cover(c.number))),
        10 => Some(Call::Ask(Question::Days)),
        11 => Some(Call::Ask(Question::Mask(c.first, c.value))),
        _ => None,
    }
}

// The call of a code that is lent no more than the places left.
#[tactic(auto, unfolding(coding::specs::Coded::next_of))]
pub fn next_of(c: Code, days: usize, numbers: usize, text: usize) -> Option<Call>
    ensures { result ≡ next_of c days numbers text }
{
    if c.days <= days && c.numbers <= numbers && c.text <= text {
        call_of(c)
    } else {
        None
    }
}

// A question's number among the questions.
pub fn question_number(question: Question) -> u8
    ensures { result ≡ question_number question }
{
    match question {
        Question::Day(_) => 1,
        Question::Span(_, _) => 2,
        Question::Cover(_) => 3,
        Question::Days => 4,
        Question::Mask(_, _) => 5,
    }
}
