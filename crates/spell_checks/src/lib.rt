// The checks of an entry, the order of two spells, and their equality in all fields.
#![tactic(auto)]

ghost use Rattle.std.specs.Prelude.{◌≡◌};
ghost use Rattle.refusal.specs.Numbers.{number_in};
ghost use Rattle.spell.specs.Blank.{blank};
ghost use Rattle.spell.specs.Entry.{urgency_ok, refusal_of};
ghost use Rattle.spell.specs.Order.{earlier_of};
ghost use Rattle.spell.specs.Same.{same_urgency, same_of};

use calendar::is_day;
use readings::bits_of;
use refusal::Refusal;
use spell::{Spell, Urgency};

// What stands in a place that holds no spell.
pub fn blank() -> Spell
    ensures { result ≡ blank }
{
    Spell {
        number: 0,
        candidate: 0,
        first: 0,
        last: 0,
        urgency: Urgency::Grade(0),
    }
}

// ---- The checks of an entry

// A reading is judged by its bits and not by a float comparison, under which -0.0 would pass. Those of a NaN are above the bound.
fn urgency_ok(u: Urgency) -> bool
    ensures { result ≡ urgency_ok u }
{
    match u {
        Urgency::Grade(g) => 1 <= g && g <= 4,
        Urgency::Reading(x) => bits_of(x) <= 0x447A_0000,
    }
}

// The first of the checks 1 to 5 that refuses s.
pub fn check(s: Spell) -> Result<(), Refusal>
    ensures { number_in result ≡ refusal_of s }
{
    if s.number == 0 {
        return Err(Refusal::NoNumber);
    }
    if s.candidate == 0 {
        return Err(Refusal::NoCandidate);
    }
    if !is_day(s.first) || !is_day(s.last) {
        return Err(Refusal::OffCalendar);
    }
    if s.last < s.first {
        return Err(Refusal::Reversed);
    }
    if !urgency_ok(s.urgency) {
        return Err(Refusal::BadUrgency);
    }
    Ok(())
}

// ---- The order

// By first day, then last day, then spell number.
pub fn earlier(a: Spell, b: Spell) -> bool
    ensures { result ≡ earlier_of a b }
{
    (a.first, a.last, a.number) < (b.first, b.last, b.number)
}

// ---- Equality in all fields

// Two readings are the same where their bits are.
fn same_urgency(a: Urgency, b: Urgency) -> bool
    ensures { result ≡ same_urgency a b }
{
    match (a, b) {
        (Urgency::Grade(g), Urgency::Grade(h)) => g == h,
        (Urgency::Reading(x), Urgency::Reading(y)) => bits_of(x) == bits_of(y),
        _ => false,
    }
}

pub fn same(a: Spell, b: Spell) -> bool
    ensures { result ≡ same_of a b }
{
    a.number == b.number
        && a.candidate == b.candidate
        && a.first == b.first
        && a.last == b.last
        && same_urgency(a.urgency, b.urgency)
}
