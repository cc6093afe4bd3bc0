// The archive of `framing` for other software: one function that C and Rust link.
#![tactic(auto)]

ghost use Rattle.streams.specs.Advancing.{HostAdvances};

use streams::{Advanced, Frame, LINE, TEXT};

// Goes on with a request that has come in part, by the bytes that have arrived from the place `from` on. The frame of a request of which
// nothing has come is all zeros.
#[unsafe(no_mangle)]
pub extern "C" fn phayaklit_advance(
    frame: Frame,
    arrived: &[u8],
    from: usize,
    line: &mut [u8; LINE],
    payload: &mut [u8; TEXT],
) -> Advanced
    ensures { HostAdvances frame arrived.now from line.old payload.old result line.new payload.new }
{
    framing::phayaklit_advance(frame, arrived, from, line, payload)
}
