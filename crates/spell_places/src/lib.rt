// Where spells stand in the list, and what a change and the laying out of columns leave in all places: definitions in specs/, laws in proofs/.
#![tactic(auto)]

use spell::Spell;

// Where a number stands, and the spell there; where it does not stand, the count and a blank spell.
#[derive(Clone, Copy)]
pub struct Located {
    pub place: usize,
    pub spell: Spell,
}
