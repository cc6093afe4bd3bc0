// An edit planned on small values, before anything is moved: its checks, which spell goes and which is put in, and what the journal notes.
#![tactic(auto)]

ghost use Rattle.std.specs.Prelude.{◌≡◌};
ghost use Rattle.refusal.specs.Numbers.{number_in};
ghost use Rattle.refusal.specs.Table.{accepted};
ghost use Rattle.spell.specs.Listing.{Sound};
ghost use Rattle.journal.specs.Journal.{last_place};
ghost use Rattle.plans.specs.Plans.{no_plan, plan_enter, plan_amend, plan_strike, plan_back, plan_of, plan_by, Decides, Takes, number_of, deeper_by};

use journal::Undo;
use model::Call;
use plans::Plan;
use refusal::Refusal;
use spell::Spell;

// ---- What an edit does, as small values

// Nothing changes.
pub fn unchanged(d: usize) -> Plan
    ensures { result ≡ plan_by (no_plan d accepted) }
{
    Plan {
        out: 1024,
        put: None,
        note: None,
        depth: d,
    }
}

// Put s in, where its number would stand at p. Checks: 1 to 5, then 6, then 8.
fn plan_enter(s: Spell, p: usize, n: usize, d: usize) -> Result<Plan, Refusal>
    ensures value { Decides d (plan_enter s p n d) result }
    ensures sound { number_in result ≡ accepted → Sound s }
{
    spell_checks::check(s)?;
    if p < n {
        return Err(Refusal::DuplicateNumber);
    }
    if n >= 1024 {
        return Err(Refusal::Full);
    }
    Ok(Plan {
        put: Some(s),
        note: Some(Undo {
            number: s.number,
            stood: false,
            spell: s,
        }),
        ..unchanged(d)
    })
}

// Replace the spell of s's number, `old` at p, by s. Checks: 1 to 5, then 7. Where s is that spell in all fields, nothing changes.
fn plan_amend(s: Spell, p: usize, old: Spell, n: usize, d: usize) -> Result<Plan, Refusal>
    ensures value { Decides d (plan_amend s p old n d) result }
    ensures sound { number_in result ≡ accepted → Sound s }
{
    spell_checks::check(s)?;
    if p >= n {
        return Err(Refusal::UnknownNumber);
    }
    if spell_checks::same(old, s) {
        return Ok(unchanged(d));
    }
    Ok(Plan {
        out: p,
        put: Some(s),
        note: Some(Undo {
            number: s.number,
            stood: true,
            spell: old,
        }),
        ..unchanged(d)
    })
}

// Remove the spell of the number, `old` at p. Check: 7.
fn plan_strike(number: u16, p: usize, old: Spell, n: usize, d: usize) -> Result<Plan, Refusal>
    ensures { Decides d (plan_strike number p old n d) result }
{
    if p >= n {
        return Err(Refusal::UnknownNumber);
    }
    Ok(Plan {
        out: p,
        note: Some(Undo {
            number,
            stood: true,
            spell: old,
        }),
        ..unchanged(d)
    })
}

// Take the newest edit of the journal back, e, whose number stands at p, if it does. Check: 9.
fn plan_back(e: Undo, p: usize, d: usize) -> Result<Plan, Refusal>
    ensures { Decides d (plan_back e p d) result }
{
    if d == 0 {
        return Err(Refusal::NoHistory);
    }
    Ok(Plan {
        out: p,
        put: e.stood.then_some(e.spell),
        note: None,
        depth: d - 1,
    })
}

// The plan of any call, where the newest entry is e, and `old` stands at p under the number that it is about. A call that is no edit changes nothing.
#[tactic(auto, unfolding(plans::specs::Plans::plan_of, plans::specs::Plans::Takes))]
pub fn planned(
    call: Call,
    e: Undo,
    p: usize,
    old: Spell,
    n: usize,
    d: usize,
) -> Result<Plan, Refusal>
    ensures value { Decides d (plan_of call e p old n d) result }
    ensures takes { Takes call (number_in result) }
{
    match call {
        Call::Enter(s) => plan_enter(s, p, n, d),
        Call::Amend(s) => plan_amend(s, p, old, n, d),
        Call::Strike(k) => plan_strike(k, p, old, n, d),
        Call::TakeBack => plan_back(e, p, d),
        Call::Publish(_) | Call::Write | Call::Ask(_) => Ok(unchanged(d)),
    }
}

// The number that a call is about; for a take back the newest entry's.
#[tactic(auto, unfolding(plans::specs::Plans::number_of))]
pub fn number_of(call: Call, newest: u16) -> u16
    ensures { result ≡ number_of call newest }
{
    match call {
        Call::Enter(s) | Call::Amend(s) => s.number,
        Call::Strike(k) => k,
        Call::TakeBack => newest,
        Call::Publish(_) | Call::Write | Call::Ask(_) => 0,
    }
}

// ---- How deep the journal is

// The place of the newest of so many entries; of none, the first place.
pub fn last_place(depth: usize) -> usize
    ensures { result ≡ last_place depth }
{
    depth.saturating_sub(1)
}

// The depth with one more entry, where one is noted: at most 64.
pub fn deeper(depth: usize, notes: bool) -> usize
    ensures { result ≡ deeper_by depth notes }
{
    if notes && depth < 64 {
        depth + 1
    } else {
        depth
    }
}
