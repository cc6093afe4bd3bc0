// What a call tells beside its lent lists. Its values stand in specs/, and `telling` has the functions that make them.
#![tactic(auto)]

// In the place of a refusal's number: the call is done.
pub const ACCEPTED: u16 = 0;

// What a call returns beside its lent lists: the refusal's number or 0, how many spells are listed, the comparisons made
// (document 01's looks), the length of a written text, the number of days ticked.
#[derive(Clone, Copy, Debug, PartialEq, Eq)]
pub struct Outcome {
    pub refusal: u16,
    pub count: usize,
    pub comparisons: usize,
    pub length: usize,
    pub ticked: usize,
}
