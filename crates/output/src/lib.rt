// Writing all of a list. What fails is told on standard error.
#![tactic(auto)]

ghost use Rattle.std.specs.Prelude.{◌≤◌, length};

use arrayvec::ArrayString;
use std::fmt::Write;
use std::io;
use std::io::Print;

// The places of a list for what the system says of a failure, with its number.
const WORDS: usize = 256;

// What stands before the number that the library puts after the system's words.
const NUMBER: &str = " (os error ";

// ---- What is told

// Says so on standard error. What can't be said there can't be told of either.
pub fn say<E: Print>(to: &E, bytes: &[u8]) {
    let _ = to.write_all(bytes);
}

// How long the system's words are, before the number.
fn words(text: &str) -> usize
    ensures { result ≤ length text.now }
{
    text.rfind(NUMBER).unwrap_or(text.len())
}

// Says what failed, as the caller names it, and why, in the system's words.
pub fn tell<E: Print>(to: &E, name: &[u8], error: &io::Error) {
    let mut text = ArrayString::<WORDS>::new();
    let _ = write!(text, "{error}");
    let end = words(&text);
    say(to, name);
    say(to, b": ");
    say(to, &text.as_bytes()[..end]);
    say(to, b"\n");
}

// Says that `name` takes no more.
fn tell_stuck<E: Print>(to: &E, name: &[u8]) {
    say(to, name);
    say(to, b": a write took nothing\n");
}

// ---- What is written

// A failure that was told on standard error.
#[derive(Clone, Copy, Debug, PartialEq, Eq)]
pub struct Told;

// Writes all bytes, and tells under `name` where that fails. A write that takes a part is followed by one of the rest. A proved loop has to
// end, so its writes are counted, up to a number that no output comes to.
pub fn write<P: Print, E: Print>(
    to: &P,
    bytes: &[u8],
    failures: &E,
    name: &[u8],
) -> Result<(), Told> {
    let mut rest = bytes;
    for _ in 0..u64::MAX {
        if rest.is_empty() {
            break;
        }
        match to.write_some(rest) {
            Ok(0) => break,
            Ok(n) => rest = &rest[n..],
            Err(error) if retry::again(&error) => {}
            Err(error) => {
                tell(failures, name, &error);
                return Err(Told);
            }
        }
    }
    if !rest.is_empty() {
        tell_stuck(failures, name);
        return Err(Told);
    }
    Ok(())
}
