// The plain account of document 01: its calls, and as definitions in specs/ its state and what each call does to it.
#![tactic(auto)]

use spell::Spell;

// A question of the published list. The days of `Days` stand beside it; those of `Mask` are the ticked ones of its base day and mask.
#[derive(Clone, Copy)]
pub enum Question {
    Day(u16),
    Span(u16, u16),
    Cover(u16),
    Days,
    Mask(u16, u64),
}

// A call of the account. The lists that a call is lent stand beside it.
#[derive(Clone, Copy)]
pub enum Call {
    Enter(Spell),
    Amend(Spell),
    Strike(u16),
    TakeBack,
    Publish(u16),
    Write,
    Ask(Question),
}
