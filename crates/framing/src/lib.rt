// The bytes that are sent to `serve`, cut into requests as they arrive.
#![tactic(auto)]

ghost use Rattle.std.specs.Prelude.{◌≡◌, ◌≤◌, ◌∷◌, [], length, take};
ghost use Rattle.streams.specs.Stream.{wants};
ghost use Rattle.streams.specs.Advancing.{Fits, Advances, ready, refused_frame, HostAdvances};
ghost use Rattle.streams.specs.History.{opened};
ghost use Rattle.framing.specs.Clauses.{Keeps, TakesLine, TakesText};

use streams::{Advanced, Frame, Framed, LINE, TEXT};

// The frame of a request of which nothing has come.
pub fn opened() -> Frame
    ensures { result ≡ opened }
{
    Frame {
        line: 0,
        payload: 0,
        wanted: 0,
    }
}

// The byte put after the first n of a list, where there is room for it: how many bytes it has then.
fn put(into: &mut [u8], n: usize, b: u8) -> usize
    requires { n ≤ length into.old }
    ensures { Keeps into.old n (b ∷ []) result into.new }
{
    if n < into.len() {
        into[n] = b;
        return n + 1;
    }
    n
}

// Takes bytes from the place `from` on up to the next LF: how many bytes the line has, n before, and the place after its LF, where this has
// come. Each byte is looked at and put in one step: bytes often come one at a time, and a copy of several asks the archive for C to find
// `memmove`.
fn take_line(n: usize, arrived: &[u8], from: usize, line: &mut [u8; LINE]) -> (usize, Option<usize>)
    requires { (n ≤ 65537) × (from ≤ length arrived.now) }
    ensures { TakesLine n arrived.now from line.old result line.new }
{
    let mut n = n;
    for at in from..arrived.len() {
        let b = arrived[at];
        n = put(line, n, b);
        if b == b'\n' {
            return (n, Some(at + 1));
        }
    }
    (n, None)
}

// Takes bytes from the place `from` on, as many as are wanted: the line of n bytes is whole, and the text has m bytes already.
fn take_text(
    n: usize,
    m: usize,
    wanted: u64,
    arrived: &[u8],
    from: usize,
    payload: &mut [u8; TEXT],
) -> Framed
    requires { (Fits n m) × (from ≤ length arrived.now) }
    ensures { TakesText n m wanted arrived.now from payload.old result payload.new }
{
    let mut m = m;
    let mut left = wanted;
    let mut at = from;
    for _ in 0..wanted {
        if arrived.len() <= at {
            return Framed::Part(Frame {
                line: n,
                payload: m,
                wanted: left,
            });
        }
        m = put(payload, m, arrived[at]);
        at += 1;
        left -= 1;
    }
    Framed::Whole(n, m, at)
}

// How many bytes follow the line of n bytes.
fn text_length(line: &[u8], n: usize) -> u64
    requires { n ≤ length line.now }
    ensures { result ≡ wants (take n line.now) }
{
    request_lines::text_length(&line[..n])
}

// Goes on with a request that has come in part, by the bytes that have arrived from the place `from` on. `line` and `payload` hold
// what is kept of it in their first places, and their later places keep what they held.
pub fn advance(
    frame: Frame,
    arrived: &[u8],
    from: usize,
    line: &mut [u8; LINE],
    payload: &mut [u8; TEXT],
) -> Framed
    ensures { Advances frame arrived.now from line.old payload.old result line.new payload.new }
{
    let n = frame.line.min(line.len());
    let m = frame.payload.min(payload.len());
    let start = from.min(arrived.len());
    if frame.wanted > 0 {
        return take_text(n, m, frame.wanted, arrived, start, payload);
    }
    match take_line(n, arrived, start, line) {
        (n, Some(next)) => {
            let wanted = text_length(line, n);
            take_text(n, 0, wanted, arrived, next, payload)
        }
        (n, None) => Framed::Part(Frame {
            line: n,
            payload: 0,
            wanted: 0,
        }),
    }
}

// ---- For other software

// Whether the calls give such a frame, and the place lies in what has arrived. (What the lists hold is not tested: whatever it is, it
// counts as what has come.)
fn is_ready(frame: Frame, size: usize, from: usize) -> bool
    ensures { result ≡ ready frame size from }
{
    frame.line <= LINE
        && frame.payload <= TEXT
        && (frame.wanted > 0 || frame.payload == 0)
        && from <= size
}

fn refused() -> Advanced
    ensures { result ≡ refused_frame }
{
    Advanced {
        outcome: 2,
        line: 0,
        payload: 0,
        wanted: 0,
        next: 0,
    }
}

// `advance` for a host, as `framing_c` exports it. The frame of a request of which nothing has come is all zeros.
pub fn phayaklit_advance(
    frame: Frame,
    arrived: &[u8],
    from: usize,
    line: &mut [u8; LINE],
    payload: &mut [u8; TEXT],
) -> Advanced
    ensures { HostAdvances frame arrived.now from line.old payload.old result line.new payload.new }
{
    let size = arrived.len();
    if !is_ready(frame, size, from) {
        return refused();
    }
    match advance(frame, arrived, from, line, payload) {
        Framed::Whole(n, m, at) => Advanced {
            outcome: 1,
            line: n,
            payload: m,
            wanted: 0,
            next: at,
        },
        Framed::Part(f) => Advanced {
            outcome: 0,
            line: f.line,
            payload: f.payload,
            wanted: f.wanted,
            next: size,
        },
    }
}
