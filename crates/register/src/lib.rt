// The register text: what reading and writing it answer. What the text is stands in specs/, and that reading and writing undo each
// other in proofs/Claims.antt; register_line, register_read and register_write have the functions.
#![tactic(auto)]

use refusal::Refusal;
use spell::Spell;

// What reading a text gives: the spells in the first places, and their count.
#[derive(Clone, Copy, Debug)]
pub struct Reading {
    pub spells: [Spell; 1024],
    pub count: usize,
}

// Why a text is refused, and the line, counted from 1, at which it is; line 0 for a text that is too long.
#[derive(Clone, Copy, Debug, PartialEq, Eq)]
pub struct Refused {
    pub refusal: Refusal,
    pub line: u16,
}
