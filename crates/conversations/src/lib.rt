// The conversations with the program `serve`, as types here and definitions in specs/: what a request is answered, and what it leaves.
#![tactic(auto)]

use model::Call;
use requests::Request;
use service::Service;

// The places of the list that is lent for days: a line of at most 65,536 bytes has fewer. And those of the lists that are lent
// for numbers and text: the largest room.
pub const DAYS: usize = 32768;

pub const ROOM: usize = 65536;

// The service after a request, the room of later calls, and the place of the lent list where the answer begins.
#[derive(Clone, Copy)]
pub struct Answered {
    pub service: Service,
    pub room: usize,
    pub place: usize,
}

// What is asked of the service: a call with the count of its days, or a reading of so many bytes.
#[derive(Clone, Copy)]
pub enum Wanted {
    Call(Call, usize),
    Read(u64),
}

// What a look at a request's line gives. A request that wants no service is answered: the request, the room of later calls, and the place
// where the answer begins. Of another it is what it wants.
#[derive(Clone, Copy)]
pub enum Looked {
    Done(Request, usize, usize),
    Wants(Wanted),
}
