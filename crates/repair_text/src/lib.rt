// What the program `repair` says on standard error: its lines, as definitions and laws. `repair_lines` has the function that puts them into a
// buffer.
#![tactic(auto)]

// What is said: a dropped line, by its place in the text, with the number that it met; a refused text, with its number and line; a repaired
// text, with its length and how many lines were dropped and displaced.
#[derive(Clone, Copy)]
pub enum Said {
    Dropped(u32, u32),
    Refused(u64, u64),
    Repaired(u64, u64, u64),
}
