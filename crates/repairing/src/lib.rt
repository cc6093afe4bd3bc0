// A register made good from a damaged text: what repairing answers. What it keeps, drops and says stands in specs/, and what is owed of it
// in proofs/Claims.antt; register_repair has the function.
#![tactic(auto)]

// What repairing gives: the length of the repaired text, how many lines were dropped, and how many kept lines now stand after a line that
// followed them.
#[derive(Clone, Copy, Debug, PartialEq, Eq)]
pub struct Repaired {
    pub length: usize,
    pub dropped: usize,
    pub displaced: usize,
}

// The same as a host is told it: the refusal's number, 0 for none, and its line, which is 0, before what is given, of which a refusal has none.
#[repr(C)]
#[derive(Clone, Copy)]
pub struct HostRepaired {
    pub refusal: u16,
    pub line: u16,
    pub length: usize,
    pub dropped: usize,
    pub displaced: usize,
}
