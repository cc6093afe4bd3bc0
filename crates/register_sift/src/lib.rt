// The lines of a damaged register text gone through from the top, each kept or dropped.
#![tactic(auto)]

ghost use Rattle.std.specs.Prelude.{◌≤◌, ◌<◌, length};
ghost use Rattle.register_sift.specs.Sifting.{within_limit, Sifts};
ghost use Rattle.register_sift.specs.Clauses.{Past, Judges};

use refusal::Refusal;
use spell::Spell;

// The most bytes of a text, and so the most lines.
pub const TEXT: usize = 65536;

// ---- A line

// The place where the next line begins, or the end. The last byte is not looked at: the end follows it, whatever it is.
fn after_line(text: &[u8], at: usize) -> usize
    requires { at < length text.now }
    ensures { Past text.now at result }
{
    for next in at + 1..text.len() {
        if text[next - 1] == b'\n' {
            return next;
        }
    }
    text.len()
}

// The line at `at`, after `count` kept ones, whose numbers are marked: its spell, or what it met, 12, 1 to 5, 6, 8.
fn judge(text: &[u8], at: usize, seen: &[bool; 65536], count: usize) -> Result<Spell, Refusal>
    requires { count ≤ 1024 }
    ensures { Judges text.now at seen.now count result }
{
    let Some((s, _)) = register_line::read_line(text, at) else {
        return Err(Refusal::Malformed);
    };
    spell_checks::check(s)?;
    if seen[usize::from(s.number)] {
        return Err(Refusal::DuplicateNumber);
    }
    if count >= 1024 {
        return Err(Refusal::Full);
    }
    Ok(s)
}

// ---- All lines

// The kept spells in the first places and their count, and how many lines there are.
#[derive(Clone, Copy, Debug)]
pub struct Sifted {
    pub spells: [Spell; 1024],
    pub count: usize,
    pub lines: usize,
}

// Goes through the lines from the top, and leaves in `met` what each met. `seen` marks the numbers of the kept ones.
fn sift_lines(text: &[u8], met: &mut [u16]) -> Sifted
    requires { (length text.now ≤ 65536) × (length text.now ≤ length met.old) }
    ensures { Sifts text.now met.old result met.new }
{
    let mut spells = [spell_checks::blank(); 1024];
    let mut seen = [false; 65536];
    let mut count: usize = 0;
    let mut lines: usize = 0;
    let mut at: usize = 0;
    while at < text.len() {
        match judge(text, at, &seen, count) {
            Ok(s) => {
                met[lines] = 0;
                spells[count] = s;
                seen[usize::from(s.number)] = true;
                count += 1;
            }
            Err(refusal) => met[lines] = refusal.number(),
        }
        lines += 1;
        at = after_line(text, at);
    }
    Sifted {
        spells,
        count,
        lines,
    }
}

// The spells of the kept lines, and in the first places of `met` what each line met, 0 where it is kept. A text above 65,536 bytes is not
// gone through: nothing is kept, it counts no line, and `met` is as it was.
pub fn sift(text: &[u8], met: &mut [u16; TEXT]) -> Sifted
    ensures { Sifts (within_limit text.now) met.old result met.new }
{
    if text.len() > TEXT {
        return sift_lines(b"", met);
    }
    sift_lines(text, met)
}
