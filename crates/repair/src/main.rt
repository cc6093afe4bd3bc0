// Reads a damaged register on standard input and writes the good one that is made of it on standard output. On standard error it says each
// dropped line with the number that it met, and last the length of the text, how many lines were dropped, and how many kept lines now stand
// after a line that followed them. A text that is too long is refused there, and nothing is written.
#![tactic(auto)]

ghost use Rattle.std.specs.Prelude.{◌≤◌, ◌*◌, length};

use repair_lines::LINE;
use repair_text::Said;

// One byte more than a register may have: a longer text is refused whatever follows.
const TEXT: usize = 65537;

// The places of a list for the repaired text, which has at most 33,792 bytes, and for two numbers of each line that a text can have.
const OUT: usize = 33792;

const REMARKS: usize = 131072;

// ---- What is said on standard error

fn say(rt: &HostRuntime, said: Said) -> bool {
    let mut line = [0u8; LINE];
    let n = repair_lines::put(&mut line, said);
    output::write(
        &rt.stderr(),
        &line[0..n],
        &rt.stderr(),
        b"repair: standard error",
    )
    .is_ok()
}

// The dropped lines, each with its number, as long as they can be said.
fn say_dropped(rt: &HostRuntime, remarks: &[u32], dropped: usize) -> bool
    requires { 2 * dropped ≤ length remarks.now }
{
    for i in 0..dropped {
        if !say(rt, Said::Dropped(remarks[2 * i], remarks[2 * i + 1])) {
            return false;
        }
    }
    true
}

// ---- The program

fn repair(rt: &HostRuntime, text: &[u8]) {
    let mut out = [0u8; OUT];
    let mut remarks = [0u32; REMARKS];
    let r = match register_repair::repair(text, &mut out, &mut remarks) {
        Ok(r) => r,
        Err(refusal) => {
            say(rt, Said::Refused(u64::from(refusal.number()), 0));
            return;
        }
    };
    let n = r.length;
    if output::write(
        &rt.stdout(),
        &out[0..n],
        &rt.stderr(),
        b"repair: standard output",
    )
    .is_err()
    {
        return;
    }
    if !say_dropped(rt, &remarks, r.dropped) {
        return;
    }
    say(
        rt,
        Said::Repaired(n as u64, r.dropped as u64, r.displaced as u64),
    );
}

fn main(rt: HostRuntime) {
    let mut text = [0u8; TEXT];
    let got = standard_input::read(
        &rt,
        &mut text,
        b"usage: repair < DAMAGED > REGISTER\nReads a damaged register on standard input and writes the good one that is made of it. On standard error it says the dropped\nlines, each with the number that it met, and last how long the text is, how many lines were dropped and how many were displaced.\n",
        b"repair: standard input",
    );
    if let Ok(n) = got {
        repair(&rt, &text[0..n]);
    }
}
