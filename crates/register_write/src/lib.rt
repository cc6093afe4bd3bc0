// Writing a list of spells as a register text.
#![tactic(auto)]

ghost use Rattle.std.specs.Prelude.{◌≡◌, take, drop};
ghost use Rattle.register.specs.Text.{urgency_text, line_text, write_all};
ghost use Rattle.register.specs.Answers.{Writes, written_in};
ghost use Rattle.register_write.specs.Clauses.{Room, Ends};

use refusal::Refusal;
use spell::{Spell, Urgency};

// A text is put into a scratch list from its end to its front: each writer puts its bytes before the place
// `at` and returns the place where they begin. A line takes at most 35 bytes, and 1,024 lines 35,840.

// The letter, its tab, the value and the LF.
fn put_urgency(buf: &mut [u8; 35840], at: usize, u: Urgency) -> usize
    requires { Room buf.old at 11 }
    ensures { Ends buf.new result (urgency_text u (drop at buf.old)) }
{
    match u {
        Urgency::Grade(g) => {
            let i = decimals::put_number(buf, at, g, b'\n');
            let j = field_bytes::put_byte(buf, i, b'\t');
            field_bytes::put_byte(buf, j, b'G')
        }
        Urgency::Reading(x) => {
            let n = readings::bits_of(x);
            let i = hexadecimals::put_bits(buf, at, n, b'\n');
            let j = field_bytes::put_byte(buf, i, b'\t');
            field_bytes::put_byte(buf, j, b'C')
        }
    }
}

fn put_line(buf: &mut [u8; 35840], at: usize, s: Spell) -> usize
    requires { Room buf.old at 35 }
    ensures { Ends buf.new result (line_text s (drop at buf.old)) }
{
    let i = put_urgency(buf, at, s.urgency);
    let j = decimals::put_number(buf, i, s.last, b'\t');
    let k = decimals::put_number(buf, j, s.first, b'\t');
    let m = decimals::put_number(buf, k, s.candidate, b'\t');
    decimals::put_number(buf, m, s.number, b'\t')
}

// The text of the first `count` spells, into the first places of `out`, and its length; above 1,024 it is that of all.
pub fn write(spells: [Spell; 1024], count: usize, out: &mut [u8]) -> Result<usize, Refusal>
    ensures { Writes (write_all (take count spells)) out.old (written_in result) out.new }
{
    let mut buf = [0u8; 35840];
    let mut at: usize = 35840;
    for s in spells[..count.min(1024)].iter().rev() {
        at = put_line(&mut buf, at, *s);
    }
    let n = 35840 - at;
    if out.len() < n {
        return Err(Refusal::ShortBuffer);
    }
    out[..n].copy_from_slice(&buf[at..]);
    Ok(n)
}
