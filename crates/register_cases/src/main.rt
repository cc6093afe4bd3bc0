// Register texts, read and written back. Standard input has the vectors, each ended by `--` and LF: a text; one that
// begins with `+`, which stands after a text of 1,024 lines; or a heading, which begins with `#`. Of each text a line is
// printed: the refusal's number, its line and the count of spells. Of an accepted text follows what writing it back gives,
// into a list of just its length, of one place less, and of 40,000 places: the refusal's number, the length, and whether
// the list then begins with the text and holds what it held in every place after it (same), holds what it held in every
// place (kept), or neither (differs).
#![tactic(auto)]

ghost use Rattle.std.specs.Prelude.{◌≤◌, length};

use spell::{Spell, Urgency};
use std::io::Read;

// What every place of a list holds before it is lent.
const FILL: u8 = 7;

fn print(rt: &HostRuntime, text: &[u8]) {
    let _ = rt.write_all(text);
}

fn number(rt: &HostRuntime, n: u64) {
    let _ = print!(rt; "{n}");
}

fn next_number(rt: &HostRuntime, n: u64) {
    print(rt, b" ");
    number(rt, n);
}

// Whether the list begins with the text and holds FILL in every place after it.
fn begins(list: &[u8], text: &[u8]) -> bool {
    match list.strip_prefix(text) {
        Some(rest) => rest.iter().all(|b| *b == FILL),
        None => false,
    }
}

// Writes the spells into the first `room` places of the list.
fn write_into(
    rt: &HostRuntime,
    spells: [Spell; 1024],
    count: usize,
    list: &mut [u8],
    room: usize,
    text: &[u8],
) {
    if list.len() < room {
        return;
    }
    let (refusal, length) = match register_write::write(spells, count, &mut list[0..room]) {
        Ok(length) => (0, length),
        Err(refusal) => (refusal.number(), 0),
    };
    print(rt, b" |");
    next_number(rt, u64::from(refusal));
    next_number(rt, length as u64);
    if begins(list, text) {
        print(rt, b" same");
        return;
    }
    if begins(list, b"") {
        print(rt, b" kept");
        return;
    }
    print(rt, b" differs");
}

fn write(rt: &HostRuntime, spells: [Spell; 1024], count: usize, room: usize, text: &[u8]) {
    let mut list = [FILL; 40000];
    write_into(rt, spells, count, &mut list, room, text);
}

// The refusal's number, its line and the count of spells.
fn answer(rt: &HostRuntime, refusal: u16, line: u16, count: usize) {
    number(rt, u64::from(refusal));
    next_number(rt, u64::from(line));
    next_number(rt, count as u64);
}

fn show(rt: &HostRuntime, text: &[u8]) {
    match register_read::read(text) {
        Ok(got) => {
            answer(rt, 0, 0, got.count);
            let n = text.len();
            write(rt, got.spells, got.count, n, text);
            if 0 < n {
                write(rt, got.spells, got.count, n - 1, text);
            }
            write(rt, got.spells, got.count, 40000, text);
        }
        Err(met) => answer(rt, met.refusal.number(), met.line, 0),
    }
    print(rt, b"\n");
}

// 1,024 spells, numbered 1 upward, all of day 2.
fn many() -> [Spell; 1024] {
    let s = Spell {
        number: 1,
        candidate: 1,
        first: 2,
        last: 2,
        urgency: Urgency::Grade(1),
    };
    let mut spells = [s; 1024];
    for (i, t) in spells.iter_mut().enumerate() {
        t.number = (i + 1) as u16;
    }
    spells
}

// Shows a text of 1,024 lines with those bytes after it.
fn after(rt: &HostRuntime, tail: &[u8]) {
    let mut text = [0u8; 40000];
    let length = register_write::write(many(), 1024, &mut text).unwrap_or(0);
    let end = gathering::append(&mut text, length, tail, 0);
    if end <= 40000 {
        show(rt, &text[0..end]);
    }
}

// Shows a text of 65,536 bytes, and one of a byte more.
fn long(rt: &HostRuntime, text: &[u8]) {
    if 65536 <= text.len() {
        show(rt, &text[0..65536]);
    }
    show(rt, text);
}

// The length of a text: digits alone, and after 1,024 lines.
fn lengths(rt: &HostRuntime) {
    print(
        rt,
        b"# the length of a text, checked before any line: digits alone, and after 1,024 lines\n",
    );
    let mut text = [b'0'; 65537];
    long(rt, &text);
    let _ = register_write::write(many(), 1024, &mut text);
    long(rt, &text);
}

// A vector: a heading, bytes after 1,024 lines, or a text.
fn vector(rt: &HostRuntime, text: &[u8]) {
    if text.len() == 0 {
        show(rt, text);
        return;
    }
    if text[0] == b'#' {
        print(rt, text);
        return;
    }
    if text[0] == b'+' {
        after(rt, &text[1..]);
        return;
    }
    show(rt, text);
}

// Each vector, up to its end.
fn vectors(rt: &HostRuntime, input: &[u8]) {
    let mut rest = input;
    while let Some(end) = rest.windows(3).position(|bytes| bytes.starts_with(b"--\n")) {
        vector(rt, &rest[..end]);
        rest = &rest[end + 3..];
    }
}

// Reads until the list is full, the input ends or a read fails, and returns how many bytes it read.
fn read_full(rt: &HostRuntime, list: &mut [u8]) -> usize
    ensures { result ≤ length list.old }
{
    let mut done = 0;
    while done < list.len() {
        match rt.stdin().read(&mut list[done..]) {
            Ok(0) | Err(_) => return done,
            Ok(more) => done += more,
        }
    }
    done
}

fn main(rt: HostRuntime) {
    let mut input = [0u8; 65536];
    let got = read_full(&rt, &mut input);
    vectors(&rt, &input[..got]);
    lengths(&rt);
}
