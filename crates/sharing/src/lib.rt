// Requests of many conversations carried out on one host's words, as a type here and definitions in specs/: the words of requests by number,
// what each may do to the state, and what a host is told.
#![tactic(auto)]

// What a host is told: the word's number, 1 where the state was changed, the room of the conversation's later calls, and the place of
// the lent list where the answer begins.
#[repr(C)]
#[derive(Clone, Copy)]
pub struct Carried {
    pub word: u32,
    pub changed: u32,
    pub room: usize,
    pub place: usize,
}
