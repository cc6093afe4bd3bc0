// The plan of an edit on small values: definitions in specs/, laws in proofs/.
#![tactic(auto)]

use journal::Undo;
use spell::Spell;

// What an edit that no check refuses changes: the spell at `out` goes, where one stands there; a spell is put in, and an entry is noted in a
// journal of that depth, where there is one.
#[derive(Clone, Copy)]
pub struct Plan {
    pub out: usize,
    pub put: Option<Spell>,
    pub note: Option<Undo>,
    pub depth: usize,
}
