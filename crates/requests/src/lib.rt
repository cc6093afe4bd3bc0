// The requests of the program `serve`: what the bytes of a line may ask, as its protocol gives them, as types here and definitions in specs/.
#![tactic(auto)]

use model::{Call, Question};

// What follows a request's word. Where several words share a layout, it says which of them it is.
#[derive(Clone, Copy)]
pub enum Layout {
    // nothing: the word is the whole line
    Alone(AloneWord),
    // the six fields of a spell
    Spell(SpellWord),
    // a number
    Number(NumberWord),
    // two numbers, the days of a span
    Pair,
    // a number and sixteen hex digits, the base day and the mask of a sheet
    Mask,
    // one day or more
    Days,
    // a decimal up to a limit
    Length(LengthWord),
    // no word of the table
    Unknown,
}

#[derive(Clone, Copy, Debug, PartialEq, Eq)]
pub enum AloneWord {
    TakeBack,
    Write,
    Days,
}

#[derive(Clone, Copy, Debug, PartialEq, Eq)]
pub enum SpellWord {
    Enter,
    Amend,
}

#[derive(Clone, Copy)]
pub enum NumberWord {
    Strike,
    Publish,
    // this question, with another number
    Ask(Question),
}

#[derive(Clone, Copy, Debug, PartialEq, Eq)]
pub enum LengthWord {
    Room,
    Read,
}

// The layout of a line's fields, and the place after its word.
#[derive(Clone, Copy)]
pub struct Head {
    pub layout: Layout,
    pub at: usize,
}

// A call with the count of its days, a room, the length of a text to read, or a line of no form.
#[derive(Clone, Copy)]
pub enum Request {
    Call(Call, usize),
    Room(usize),
    Read(u64),
    Malformed,
}
