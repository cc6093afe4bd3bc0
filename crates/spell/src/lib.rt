// A spell of a candidate on the waiting list: its fields, and as definitions in specs/ the checks of an entry, the order of spells, equality.
#![tactic(auto)]

// The urgency: a listed grade or a measured reading.
#[derive(Clone, Copy, Debug)]
pub enum Urgency {
    Grade(u16),
    Reading(f32),
}

// Both days are counted in.
#[derive(Clone, Copy, Debug)]
pub struct Spell {
    pub number: u16,
    pub candidate: u16,
    pub first: u16,
    pub last: u16,
    pub urgency: Urgency,
}
