// A call coded in words, as types here and definitions in specs/.
#![tactic(auto)]

// A call in ten words: its number (`op_of` in specs/Coded.antt), the fields of a spell, and how many places of the lists of days, numbers and
// text it is lent. A mask stands in the place of the value, its base day in that of the first day.
#[derive(Clone, Copy, Debug, PartialEq, Eq)]
pub struct Code {
    pub op: u64,
    pub number: u16,
    pub candidate: u16,
    pub first: u16,
    pub last: u16,
    pub kind: u64,
    pub value: u64,
    pub days: usize,
    pub numbers: usize,
    pub text: usize,
}
