// When a read or a write that failed is tried again.
#![tactic(auto)]

ghost use Rattle.std.specs.Prelude.{◌≡◌, ◌↔◌, ◌⊎◌, IsTrue};
ghost use Rattle.std.specs.IoError.{error_kind};

use std::io::ErrorKind;
use std::{io, thread};

// Whether the read or the write that failed so is to be tried again: a signal came in between, or the descriptor is one that
// does not wait. There others run first.
pub fn again(error: &io::Error) -> bool
    ensures { IsTrue result ↔ ((error_kind error.now ≡ ErrorKind.WouldBlock) ⊎ (error_kind error.now ≡ ErrorKind.Interrupted)) }
{
    match error.kind() {
        ErrorKind::WouldBlock => {
            thread::yield_now();
            true
        }
        ErrorKind::Interrupted => true,
        _ => false,
    }
}
