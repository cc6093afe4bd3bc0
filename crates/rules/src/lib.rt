// The rules of publishing, and the last day with which a rule publishes a spell.
#![tactic(auto)]

ghost use Rattle.std.specs.Prelude.{◌≡◌};
ghost use Rattle.rules.specs.Rules.{is_rule, lapsed, last_of};

use spell::{Spell, Urgency};

// Whether there is such a rule.
pub fn is_rule(rule: u16) -> bool
    ensures { result ≡ is_rule rule }
{
    rule == 1 || rule == 2
}

// The earlier of the last day and the first day + 6.
fn lapsed(first: u16, last: u16) -> u16
    ensures { result ≡ lapsed first last }
{
    last.min(first.saturating_add(6))
}

// The last day of a spell that is published by a rule.
pub fn last_day(s: Spell, rule: u16) -> u16
    ensures { result ≡ last_of rule s }
{
    match s.urgency {
        Urgency::Reading(_) if rule == 2 => lapsed(s.first, s.last),
        _ => s.last,
    }
}
