// Families of rows, built by `stabbing_index::build` and asked the four questions. Standard input is lines of 18 places: a name, or
// three numbers of five places with one place after each. First stand how many lines of questions there are and how many families. A question
// is two days and how many days it has; those of several days go on in equal steps. A family is its name; how many kinds of question
// it is asked, how many rows follow, and how many it is said to have; its rows, each a number with its first and last day; and of each
// kind of question the name, and the kind, the line of its first question and how many there are.
//
// A line is printed of each family: its name, the count of its rows, a checksum of them. Where they cannot be published and the index is as it
// was, a line says so. Where they are, a line follows for each kind of question: the kind, how many questions were asked, the sum of
// the counts listed, the sum of the comparisons, and a checksum over every answer. Each question is asked with a list of 1,025 places
// and, where it lists some, again with just as many places as it lists and with one less; the sums are of the first of these, the
// checksum is of all three: refusal, count, comparisons, the numbers listed, and the place after them, which must hold what it held.
#![tactic(auto)]

ghost use Rattle.std.specs.Prelude.{◌≡◌, true};
ghost use Rattle.stabbing.specs.Index.{Block, Built};

use refusal::Refusal;
use stabbing::{INDEX, Listed, ROWS};
use std::io::Read;

// What every place of a list holds before it is lent.
const MARK: u16 = 60001;

fn print(rt: &HostRuntime, text: &[u8]) {
    let _ = rt.write_all(text);
}

fn next_number(rt: &HostRuntime, n: u64) {
    let _ = print!(rt; " {n}");
}

// ---- Lines of standard input

// A line of three numbers.
#[derive(Clone, Copy)]
struct Line {
    a: u16,
    b: u16,
    c: u16,
}

// The number v with a digit more, or as it is where the byte is none.
fn digit(v: u16, b: u8) -> u16 {
    if b <= b' ' {
        return v;
    }
    v.wrapping_mul(10).wrapping_add(u16::from(b % 16))
}

// Reads the next six places, as far as there are so many.
fn read_places(rt: &HostRuntime, t: &mut [u8; 6]) {
    let _ = rt.stdin().read_exact(t);
}

// The number in the next six places. Past the end they are spaces.
fn read_number(rt: &HostRuntime) -> u16 {
    let mut t = [b' '; 6];
    read_places(rt, &mut t);
    t.iter().fold(0, |v, b| digit(v, *b))
}

fn read_line(rt: &HostRuntime) -> Line {
    Line {
        a: read_number(rt),
        b: read_number(rt),
        c: read_number(rt),
    }
}

// Prints a byte of a name; a space is none.
fn print_letter(rt: &HostRuntime, b: u8) {
    if b' ' < b {
        print(rt, &[b]);
    }
}

// Prints what the next six places have of a name.
fn print_letters(rt: &HostRuntime) {
    let mut t = [b' '; 6];
    read_places(rt, &mut t);
    for b in t {
        print_letter(rt, b);
    }
}

// Prints the name in the next line.
fn print_name(rt: &HostRuntime) {
    print_letters(rt);
    print_letters(rt);
    print_letters(rt);
}

// The numbers of the next n lines, in three columns.
fn read_rows(
    rt: &HostRuntime,
    a: &mut [u16; 1024],
    b: &mut [u16; 1024],
    c: &mut [u16; 1024],
    n: u16,
) {
    for p in 0..usize::from(n) % 1025 {
        let l = read_line(rt);
        a[p] = l.a;
        b[p] = l.b;
        c[p] = l.c;
    }
}

// ---- The checksum

// The checksum h with x taken in.
fn mix(h: u64, x: u64) -> u64 {
    ((h % 1000003) * 31 + x % 1000003) % 1000003
}

// The checksum h with the first k places of the list taken in.
fn mix_list(h: u64, list: &[u16], k: usize) -> u64 {
    list.iter().take(k).fold(h, |s, x| mix(s, u64::from(*x)))
}

// ---- One question

// What one asking gives, or many together, and the checksum after it.
#[derive(Clone, Copy)]
struct Heard {
    listed: usize,
    comparisons: u64,
    hash: u64,
}

// The question of n days, from a on in equal steps, the second of which is b.
fn several(index: &[u16; INDEX], a: u16, b: u16, n: u16, out: &mut [u16]) -> Result<Listed, Refusal>
    requires { Built index.now }
{
    let mut days = [0u16; 4000];
    let step = b.wrapping_sub(a);
    let m = usize::from(n) % 4001;
    let mut d = a;
    for day in days[..m].iter_mut() {
        *day = d;
        d = d.wrapping_add(step);
    }
    stabbing_days::days(index, &days[..m], out)
}

// A question of a kind: a day, a span, a cover, or several days.
fn put(index: &[u16; INDEX], kind: u16, q: Line, out: &mut [u16]) -> Result<Listed, Refusal>
    requires { Built index.now }
{
    match kind {
        0 => stabbing_query::day(index, q.a, out),
        1 => stabbing_query::span(index, q.a, q.b, out),
        2 => stabbing_query::cover(index, q.a, out),
        _ => several(index, q.a, q.b, q.c, out),
    }
}

// Asks with a list of `room` places.
fn hear(index: &[u16; INDEX], kind: u16, q: Line, room: usize, hash: u64) -> Heard
    requires { Built index.now }
{
    let mut out = [MARK; 1025];
    let m = room % 1026;
    let (refusal, k, comparisons) = match put(index, kind, q, &mut out[..m]) {
        Ok(listed) => (0, listed.count, listed.comparisons as u64),
        Err(refusal) => (refusal.number(), 0, 0),
    };
    let a = mix(hash, u64::from(refusal));
    let b = mix(a, k as u64);
    let c = mix(b, comparisons);
    let next = k.wrapping_add(1);
    Heard {
        listed: k,
        comparisons,
        hash: mix_list(c, &out, next),
    }
}

// Asks with room for all, and where k are listed with k places and with k - 1.
fn ask(index: &[u16; INDEX], kind: u16, q: Line, t: Heard) -> Heard
    requires { Built index.now }
{
    let a = hear(index, kind, q, 1025, t.hash);
    let k = a.listed;
    let mut h = a.hash;
    if 0 < k {
        let b = hear(index, kind, q, k, h);
        let c = hear(index, kind, q, k - 1, b.hash);
        h = c.hash;
    }
    Heard {
        listed: t.listed.wrapping_add(k),
        comparisons: t.comparisons.wrapping_add(a.comparisons),
        hash: h,
    }
}

// ---- Many questions

// A cover in place of another question: in turn of each place among the rows and each row's number.
fn covered(number: &[u16; 1024], kind: u16, i: u16, other: u16) -> u16 {
    if kind != 2 {
        return other;
    }
    if i % 2 == 0 {
        return i / 2;
    }
    number[usize::from(i) / 2 % 1024]
}

// The questions of one kind: the kind, where they begin in the columns of questions, and how many they are.
fn each(
    index: &[u16; INDEX],
    number: &[u16; 1024],
    a: &[u16; 1024],
    b: &[u16; 1024],
    c: &[u16; 1024],
    kind: Line,
) -> Heard
    requires { Built index.now }
{
    let mut t = Heard {
        listed: 0,
        comparisons: 0,
        hash: 0,
    };
    for i in 0..kind.c {
        let p = (usize::from(kind.b) + usize::from(i)) % 1024;
        let q = Line {
            a: covered(number, kind.a, i, a[p]),
            b: b[p],
            c: c[p],
        };
        t = ask(index, kind.a, q, t);
    }
    t
}

fn report(rt: &HostRuntime, asked: u16, t: Heard) {
    next_number(rt, u64::from(asked));
    next_number(rt, t.listed as u64);
    next_number(rt, t.comparisons);
    next_number(rt, t.hash);
    print(rt, b"\n");
}

// The questions of as many kinds as n says.
fn ask_all(
    rt: &HostRuntime,
    index: &[u16; INDEX],
    number: &[u16; 1024],
    a: &[u16; 1024],
    b: &[u16; 1024],
    c: &[u16; 1024],
    n: u16,
)
    requires { Built index.now }
{
    for _ in 0..n {
        print_name(rt);
        let kind = read_line(rt);
        report(rt, kind.c, each(index, number, a, b, c, kind));
    }
}

// ---- A family

// Whether the number of each row leads to that row: a number that two rows have leads to one of them. Then the questions may be asked.
fn own_numbers(index: &[u16; INDEX]) -> bool
    requires { Block index.now }
    ensures { result ≡ true → Built index.now }
{
    let n = usize::from(index[ROWS]);
    for p in 0..n {
        if stabbing_lookup::find(index, index[p]) != p + 1 {
            return false;
        }
    }
    true
}

// The index of the rows, and whether it may be asked. The rows are taken into a checksum of their own, so that both accounts are
// seen to have the same; where they cannot be published the index is to be as it was.
fn built(
    rt: &HostRuntime,
    number: &[u16; 1024],
    first: &[u16; 1024],
    last: &[u16; 1024],
    n: usize,
    index: &mut [u16; INDEX],
) -> bool
    ensures { result ≡ true → Built index.new }
{
    next_number(
        rt,
        mix_list(mix_list(mix_list(0, number, n), first, n), last, n),
    );
    print(rt, b"\n");
    let before = mix_list(0, index, INDEX);
    if stabbing_index::build(number, first, last, n, index) {
        return own_numbers(index);
    }
    if before == mix_list(0, index, INDEX) {
        print(rt, b"refused kept\n");
    }
    false
}

// The next family.
fn family(
    rt: &HostRuntime,
    a: &[u16; 1024],
    b: &[u16; 1024],
    c: &[u16; 1024],
    index: &mut [u16; INDEX],
) {
    let mut number = [0u16; 1024];
    let mut first = [0u16; 1024];
    let mut last = [0u16; 1024];
    print_name(rt);
    let l = read_line(rt);
    read_rows(rt, &mut number, &mut first, &mut last, l.b);
    print(rt, b" rows");
    next_number(rt, u64::from(l.c));
    if built(rt, &number, &first, &last, usize::from(l.c), index) {
        ask_all(rt, index, &number, a, b, c, l.a);
    }
}

fn main(rt: HostRuntime) {
    let mut a = [0u16; 1024];
    let mut b = [0u16; 1024];
    let mut c = [0u16; 1024];
    let mut index = [0u16; INDEX];
    let l = read_line(&rt);
    read_rows(&rt, &mut a, &mut b, &mut c, l.a);
    for _ in 0..l.b {
        family(&rt, &a, &b, &c, &mut index);
    }
}
