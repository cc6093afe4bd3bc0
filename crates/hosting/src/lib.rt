// The service in a host's memory: the structs that hosts hand over and are given, with their conversions, and in specs/ what they and a
// host's words stand for, and calls made on them.
#![tactic(auto)]

ghost use Rattle.std.specs.Prelude.{◌≡◌};
ghost use Rattle.hosting.specs.Host.{spell_in, outcome_of};

use outcomes::Outcome;
use spell::Spell;

// A spell as a host gives it. Kind 0 is a grade, and `value` is the grade; kind 1 is a reading, and `value` is its bits. Any other
// kind, and a grade above 65,535, is a bad urgency, which is refused in its turn among the checks.
#[repr(C)]
#[derive(Clone, Copy)]
pub struct Entry {
    pub number: u16,
    pub candidate: u16,
    pub first: u16,
    pub last: u16,
    pub kind: u16,
    pub value: u32,
}

// The spell that a host gives.
impl From<Entry> for Spell {
    ghost from_gives = { λ e s. s ≡ spell_in e };

    fn from(e: Entry) -> Spell {
        Spell {
            number: e.number,
            candidate: e.candidate,
            first: e.first,
            last: e.last,
            urgency: packing::urgency_of(e.kind, e.value),
        }
    }
}

// What a call answers: the refusal's number or 0, how many spells are listed, the comparisons made (document 01's looks), the
// length of a written text, the number of days ticked.
#[repr(C)]
#[derive(Clone, Copy)]
pub struct Reply {
    pub refusal: u16,
    pub count: usize,
    pub comparisons: usize,
    pub length: usize,
    pub ticked: usize,
}

// A reply has the outcome of a call, field for field.
impl From<Outcome> for Reply {
    ghost from_gives = { λ o r. outcome_of r ≡ o };

    fn from(o: Outcome) -> Reply {
        Reply {
            refusal: o.refusal,
            count: o.count,
            comparisons: o.comparisons,
            length: o.length,
            ticked: o.ticked,
        }
    }
}

// What a reading answers: the refusal's number with its line, or 0 and 0.
#[repr(C)]
#[derive(Clone, Copy)]
pub struct Opened {
    pub refusal: u16,
    pub line: u16,
}
