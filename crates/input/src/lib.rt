// Reading until a list is full or the input ends.
#![tactic(auto)]

ghost use Rattle.std.specs.Prelude.{length};
ghost use Rattle.input.specs.Input.{Within};

use std::io;
use std::io::{ErrorKind, Read};

// Waits for input: how many bytes a read brings, none where the input has ended. A proved loop has to end, so its reads are counted, up to
// a number that no wait comes to.
pub fn await_some<R: Read>(from: &mut R, text: &mut [u8]) -> io::Result<usize>
    ensures { Within (length text.old) result }
{
    let mut failed = io::Error::from(ErrorKind::WouldBlock);
    for _ in 0..u64::MAX {
        match from.read(text) {
            Err(error) if retry::again(&error) => failed = error,
            got => return got,
        }
    }
    Err(failed)
}

// Reads until the text is full or the input ends: how many bytes.
pub fn fill<R: Read>(from: &mut R, text: &mut [u8]) -> io::Result<usize>
    ensures { Within (length text.old) result }
{
    let mut n = 0;
    while n < text.len() {
        let more = await_some(from, &mut text[n..])?;
        if more == 0 {
            break;
        }
        n += more;
    }
    Ok(n)
}
