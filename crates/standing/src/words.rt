// A standing list in words of 16 bits, and back: all 1,024 places of its array, seven words each, all 64 of its journal, nine
// words each, the count and the depth.
ghost use Rattle.std.specs.Prelude.{◌≡◌, length};
ghost use Rattle.packing.specs.Layout.{standing_length};
ghost use Rattle.standing.specs.Standing.{Wf};
ghost use Rattle.standing.specs.Packed.{unpacked, Packs};

use crate::Standing;
use packing::{COUNT, DEPTH, SPELLS};

// How many words a standing list takes.
pub const STANDING: usize = packing::STANDING;

fn put_standing(st: Standing, out: &mut [u16])
    requires wf { Wf st }
    requires out_len { length out.old ≡ standing_length }
    ensures { Packs st out.new }
{
    packing::put_all(&st.spells, &mut out[0..SPELLS]);
    packing::put_all(&st.journal, &mut out[SPELLS..COUNT]);
    out[COUNT] = st.count as u16;
    out[DEPTH] = st.depth as u16;
}

fn standing_at(words: &[u16]) -> Standing
    requires { length words.now ≡ standing_length }
    ensures { result ≡ unpacked words.now }
{
    Standing {
        spells: packing::all_at(&words[0..SPELLS]),
        count: usize::from(words[COUNT]),
        journal: packing::all_at(&words[SPELLS..COUNT]),
        depth: usize::from(words[DEPTH]),
    }
}

// The words of a standing list, which read back as it.
pub fn pack(st: Standing, out: &mut [u16; STANDING])
    requires { Wf st }
    ensures { Packs st out.new }
{
    put_standing(st, out);
}

// The standing list of any words.
pub fn unpack(words: &[u16; STANDING]) -> Standing
    ensures { result ≡ unpacked words.now }
{
    standing_at(words)
}
