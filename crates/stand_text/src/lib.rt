// What the program `stand` prints: its lines, and the whole text in parts of many lines, as definitions and laws. `stand_lines` has the
// functions that put them into lent lists.
#![tactic(auto)]

// The places of a buffer: a line has at most 1,027 numbers, and each takes six at most with the byte that ends it.
pub const LINE: usize = 8192;

// The places of a list for a part, and the last day of the calendar.
pub const PART: usize = 65536;

pub const LAST_DAY: u16 = 4000;

// Whole lines in the first places of a list: how many bytes they have, and the day to go on with.
#[derive(Clone, Copy, Debug, PartialEq, Eq)]
pub struct Part {
    pub bytes: usize,
    pub next: u16,
}
