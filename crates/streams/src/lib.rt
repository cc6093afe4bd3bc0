// The bytes that are sent to `serve`, as types here and definitions in specs/: how a stream is cut into requests, in whatever pieces it arrives.
#![tactic(auto)]

// One byte more than a request's line may have: what a longer line has beyond it is passed over.
pub const LINE: usize = 65537;

// The most bytes of a text: those beyond are passed over.
pub const TEXT: usize = 65536;

// A request that has come in part: so many bytes are kept of its line and of the text after it, and so many of the text are still
// wanted; none while the line is not whole.
#[repr(C)]
#[derive(Clone, Copy, Debug, PartialEq, Eq)]
pub struct Frame {
    pub line: usize,
    pub payload: usize,
    pub wanted: u64,
}

// A whole request: so many bytes of its line and of its text, and the place after it. Or a part of one, where all bytes are taken.
#[derive(Clone, Copy, Debug, PartialEq, Eq)]
pub enum Framed {
    Whole(usize, usize, usize),
    Part(Frame),
}

// What a host is given. Outcome 1 is a whole request: so many bytes of its line and of its text, with the place after it. Outcome 0 is a
// part of one: the frame to go on with. Outcome 2 refuses a frame that no call gave and a place that is not there: all else is 0, and
// both lists are as they were.
#[repr(C)]
#[derive(Clone, Copy, Debug, PartialEq, Eq)]
pub struct Advanced {
    pub outcome: u32,
    pub line: usize,
    pub payload: usize,
    pub wanted: u64,
    pub next: usize,
}
