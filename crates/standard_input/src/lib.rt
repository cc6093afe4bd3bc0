// The standard input of a program that takes no argument.
#![tactic(auto)]

ghost use Rattle.std.specs.Prelude.{length};
ghost use Rattle.input.specs.Input.{Within};

use std::env::{Env, FillError};
use std::io;
use std::io::ErrorKind;

// Reads until the text is full or the input ends: how many bytes. Where an argument is given the usage is said and nothing is read; a read
// that fails is told under `name`.
pub fn read(rt: &HostRuntime, text: &mut [u8], usage: &[u8], name: &[u8]) -> io::Result<usize>
    ensures { Within (length text.old) result }
{
    if !matches!(rt.arg(1, &mut []), Err(FillError::NotPresent)) {
        output::say(&rt.stderr(), usage);
        return Err(io::Error::from(ErrorKind::InvalidInput));
    }
    let got = input::fill(&mut rt.stdin(), text);
    if let Err(error) = &got {
        output::tell(&rt.stderr(), name, error);
    }
    got
}
