// The answers of the program `serve`, byte for byte as its protocol gives them, as types here and definitions in specs/.
#![tactic(auto)]

// The places of the list that is lent for an answer: every answer is shorter.
pub const OUT: usize = 131072;

// The shape of an accepted call's answer.
#[derive(Clone, Copy, Debug, PartialEq, Eq)]
pub enum Shape {
    // done, and no more
    Ok,
    // a text
    Text,
    // numbers with their comparisons
    Listed,
    // numbers without
    Several,
    // numbers without, and the days ticked
    Ticked,
}
