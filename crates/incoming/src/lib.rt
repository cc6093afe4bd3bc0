// Requests taken from standard input as they arrive, and answers gathered for standard output.
#![tactic(auto)]

ghost use Rattle.std.specs.Prelude.{◌≤◌, IfSome, length, take, drop};
ghost use Rattle.streams.specs.Advancing.{Advances};
ghost use Rattle.serving.specs.Serving.{gathered_in, Gathers, taken_in, Takes};

use serving::{ARRIVED, Incoming};
use streams::{Frame, Framed, LINE, TEXT};

// ---- Output: answers are gathered, and written together before a read that may wait

// Writes the first n bytes of what is gathered; false where that can't be done, which is told.
fn write_first(rt: &HostRuntime, gathered: &[u8], n: usize) -> bool {
    if gathered.len() < n {
        return false;
    }
    output::write(
        &rt.stdout(),
        &gathered[..n],
        &rt.stderr(),
        b"serve: standard output",
    )
    .is_ok()
}

// Puts the answer that ends `out` after those that are gathered, which are written first where there is no room for it: how many bytes
// are gathered then, or none where no more can be served.
pub fn gather(
    rt: &HostRuntime,
    gathered: &mut [u8],
    held: usize,
    out: &[u8],
    place: usize,
) -> Option<usize>
    ensures { Gathers (drop place out.now) gathered.old held (gathered_in result) gathered.new }
{
    let n = gathering::append(gathered, held, out, place);
    if held < n {
        return Some(n);
    }
    if !write_first(rt, gathered, held) {
        return None;
    }
    let n = gathering::append(gathered, 0, out, place);
    if n == 0 {
        return None;
    }
    Some(n)
}

// ---- Input

// Waits for input, once the first `held` bytes of what is gathered are written: how many bytes have arrived, or none where it has ended,
// can't be read or nothing can be written, which is told.
fn wait(rt: &HostRuntime, arrived: &mut [u8], gathered: &[u8], held: usize) -> Option<usize>
    ensures { IfSome result (λ n. n ≤ length arrived.old) }
{
    if !write_first(rt, gathered, held) {
        return None;
    }
    match input::await_some(&mut rt.stdin(), arrived) {
        Ok(0) => None,
        Ok(n) => Some(n),
        Err(error) => {
            output::tell(&rt.stderr(), b"serve: standard input", &error);
            None
        }
    }
}

// Goes on with a request by the bytes from `start` to `end`.
fn advance(
    frame: Frame,
    arrived: &[u8],
    start: usize,
    end: usize,
    line: &mut [u8; LINE],
    payload: &mut [u8; TEXT],
) -> Framed
    requires { end ≤ length arrived.now }
    ensures { Advances frame (take end arrived.now) start line.old payload.old result line.new payload.new }
{
    framing::advance(frame, &arrived[..end], start, line, payload)
}

// Takes the next request, as soon as all of it has arrived: of the bytes from `start` to `end`, or to the list's end where that comes first, and
// of those that are read after them. What is gathered is written before a read. A proved loop has to end, so its reads are counted, up to a
// number that no request comes to.
pub fn next(
    rt: &HostRuntime,
    arrived: &mut [u8; ARRIVED],
    start: usize,
    end: usize,
    line: &mut [u8; LINE],
    payload: &mut [u8; TEXT],
    gathered: &[u8],
    held: usize,
) -> Option<Incoming>
    ensures { Takes arrived.old start end (taken_in result) arrived.new line.new payload.new }
{
    let mut frame = framing::opened();
    let mut at = start;
    let mut to = end.min(arrived.len());
    let mut unsent = held;
    for _ in 0..u64::MAX {
        match advance(frame, arrived, at, to, line, payload) {
            Framed::Whole(n, m, place) => {
                return Some(Incoming {
                    line: n,
                    payload: m,
                    start: place,
                    end: to,
                    held: unsent,
                });
            }
            Framed::Part(part) => frame = part,
        }
        at = 0;
        to = wait(rt, arrived, gathered, unsent)?;
        unsent = 0;
    }
    None
}
