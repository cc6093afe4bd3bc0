// A damaged register text made good: the spells of its kept lines written in the order, and a remark for each line that was dropped.
#![tactic(auto)]

ghost use Rattle.std.specs.Prelude.{◌≡◌, ◌≤◌, length};
ghost use Rattle.buffer.specs.Buffer.{over};
ghost use Rattle.repairing.specs.Repair.{remarks_from, places_of};
ghost use Rattle.repairing.specs.Answers.{repaired_in, Repairs};

use refusal::Refusal;
use register_sift::TEXT;
use repairing::Repaired;

// ---- What is said

// For each line that met a number two places: the line, counted from 1, and the number.
fn remark(met: &[u16], remarks: &mut [u32])
    requires few { length met.now ≤ 65536 }
    requires room { length (places_of (remarks_from 1 met.now)) ≤ length remarks.old }
    ensures { remarks.new ≡ over (places_of (remarks_from 1 met.now)) remarks.old }
{
    let mut k = 0;
    for (i, number) in met.iter().enumerate() {
        if *number != 0 {
            remarks[k] = i as u32 + 1;
            remarks[k + 1] = u32::from(*number);
            k += 2;
        }
    }
}

// ---- The whole

// A good register from a damaged text, into the first places of `out`, and what is said of the dropped lines into those of `remarks`. Both
// are as they were where it is refused.
pub fn repair(text: &[u8], out: &mut [u8], remarks: &mut [u32]) -> Result<Repaired, Refusal>
    ensures { Repairs text.now out.old remarks.old (repaired_in result) out.new remarks.new }
{
    if text.len() > TEXT {
        return Err(Refusal::Malformed);
    }
    let mut met = [0u16; TEXT];
    let sifted = register_sift::sift(text, &mut met);
    let dropped = sifted.lines - sifted.count;
    if remarks.len() < 2 * dropped {
        return Err(Refusal::ShortBuffer);
    }
    let ordered = spell_order::put_in_order(sifted.spells, sifted.count);
    let length = register_write::write(ordered, sifted.count, out)?;
    remark(&met[..sifted.lines], remarks);
    let displaced = spell_order::displaced(sifted.spells, sifted.count);
    Ok(Repaired {
        length,
        dropped,
        displaced,
    })
}
