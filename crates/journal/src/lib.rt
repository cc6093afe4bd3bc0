// The journal of edits: what an entry is, which one an edit notes and a take back reads, and its words of 16 bits: definitions in specs/, laws in proofs/.
#![tactic(auto)]

ghost use Rattle.std.specs.Prelude.{◌≡◌};
ghost use Rattle.packing.specs.Layout.{entry_width};
ghost use Rattle.journal.specs.Journal.{blank_entry};
ghost use Rattle.journal.specs.Words.{entry_words, entry_of, entry_long};

use packing::{ENTRY, Packed};
use spell::Spell;

// How to go back one edit: the spell number, and the spell that stood under it before, if one did.
#[derive(Clone, Copy)]
pub struct Undo {
    pub number: u16,
    pub stood: bool,
    pub spell: Spell,
}

// What stands in a place that holds no entry.
pub fn none() -> Undo
    ensures { result ≡ blank_entry }
{
    Undo {
        number: 0,
        stood: false,
        spell: spell_checks::blank(),
    }
}

impl Packed for Undo {
    ghost WIDTH = { entry_width };

    ghost words_of = { entry_words };

    ghost of_words = { entry_of };

    const WIDTH: usize = ENTRY;

    fn put(self, out: &mut [u16], at: usize) {
        let Some(last) = out.len().checked_sub(ENTRY) else {
            return;
        };
        if last < at {
            return;
        }
        out[at] = self.number;
        out[at + 1] = u16::from(self.stood);
        self.spell.put(out, at + 2);
    }

    // Where there are not nine words, it is an entry of zeros.
    fn at(words: &[u16], at: usize) -> Undo {
        let Some(last) = words.len().checked_sub(ENTRY) else {
            return none();
        };
        if last < at {
            return none();
        }
        Undo {
            number: words[at],
            stood: words[at + 1] != 0,
            spell: Spell::at(words, at + 2),
        }
    }

    ghost long = { entry_long };
}
