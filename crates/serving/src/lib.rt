// What `serve` makes of the bytes that it reads, as types here and definitions in specs/: a request, a look at it, and its answer.
#![tactic(auto)]

use conversations::Looked;

// The bytes that one read may bring.
pub const ARRIVED: usize = 65536;

// A request that is taken from the input: so many bytes of its line and of the text that follows it. The bytes from `start` to `end` have
// arrived and are not taken yet, and so many bytes of answers are still gathered.
#[derive(Clone, Copy, Debug, PartialEq, Eq)]
pub struct Incoming {
    pub line: usize,
    pub payload: usize,
    pub start: usize,
    pub end: usize,
    pub held: usize,
}

// A request that is taken, and what a look at its line gave.
#[derive(Clone, Copy)]
pub struct Seen {
    pub request: Incoming,
    pub looked: Looked,
}
