// A look at a request's line: a question, a room and a line of no form are answered, and the index is read where it lies. What another
// wants of the service is told.
#![tactic(auto)]

ghost use Rattle.std.specs.Prelude.{◌≡◌, ℕ, ◌≤◌, length, take};
ghost use Rattle.requests.specs.Requests.{asks_call};
ghost use Rattle.requests.specs.Parsing.{asked_from, days_in, room_in};
ghost use Rattle.conversations.specs.Answering.{wanted_in, wanted_by, LooksAt, Looks};
ghost use Rattle.conversations.specs.Clauses.{AskTurn};
ghost use Rattle.published_index.specs.Index.{Published};
ghost use Rattle.service.specs.Service.{blocks};

use conversations::{DAYS, Looked, ROOM, Wanted};
use model::{Call, Question};
use replies::OUT;
use requests::Request;
use stabbing::INDEX;

// A question, lent lists of `room` places: the place where its answer begins.
fn ask_turn(
    index: &[u16; INDEX],
    room: usize,
    question: Question,
    days: &[u16],
    numbers: &mut [u16],
    text: &[u8],
    out: &mut [u8; OUT],
) -> usize
    requires published { Published index.now }
    requires room_bound { (room ≤ 65536) × (length numbers.old ≡ room) × (length text.now ≡ room) }
    ensures { AskTurn (blocks index.now) question days.now numbers.old text.now room out.old result numbers.new out.new }
{
    let o = questions::ask(index, question, days, numbers);
    reply_calls::put_reply(out, Call::Ask(question), o, numbers, text)
}

// A call with its days in the first places of `days`: a question is answered.
fn look_call(
    index: &[u16; INDEX],
    room: usize,
    call: Call,
    k: usize,
    days: &[u16],
    numbers: &mut [u16],
    text: &[u8],
    out: &mut [u8; OUT],
) -> Looked
    requires published { Published index.now }
    requires room_bound { (room ≤ 65536) × (k ≤ length days.now) }
    requires numbers_len { (length numbers.old ≡ 65536) × (length text.now ≡ 65536) }
    ensures looks_at { LooksAt (blocks index.now) room (Request.Call call k) (asks_call call (take k days.now)) days.now numbers.old text.now out.old result numbers.new out.new }
    ensures result_value { wanted_in result ≡ wanted_by (Request.Call call k) }
{
    let Call::Ask(question) = call else {
        return Looked::Wants(Wanted::Call(call, k));
    };
    let place = ask_turn(
        index,
        room,
        question,
        &days[..k],
        &mut numbers[..room],
        &text[..room],
        out,
    );
    Looked::Done(Request::Call(call, k), room, place)
}

// A request that is parsed, its days in the first places of `days`.
fn look_at(
    index: &[u16; INDEX],
    room: usize,
    request: Request,
    days: &[u16],
    numbers: &mut [u16],
    text: &[u8],
    out: &mut [u8; OUT],
) -> Looked
    requires published { Published index.now }
    requires room_bound { (room ≤ 65536) × (room_in request ≤ 65536) × (days_in request ≤ length days.now) }
    requires numbers_len { (length numbers.old ≡ 65536) × (length text.now ≡ 65536) }
    ensures looks_at { LooksAt (blocks index.now) room request (asked_from request days.now) days.now numbers.old text.now out.old result numbers.new out.new }
    ensures result_value { wanted_in result ≡ wanted_by request }
{
    match request {
        Request::Call(call, k) => look_call(index, room, call, k, days, numbers, text, out),
        Request::Room(n) => Looked::Done(Request::Room(n), n, reply_lines::put_ok(out)),
        Request::Read(n) => Looked::Wants(Wanted::Read(n)),
        Request::Malformed => Looked::Done(
            Request::Malformed,
            room,
            reply_lines::put_malformed(out),
        ),
    }
}

// A look at a request's line, with its LF: a question, a room and a line of no form are answered here. The answer stands in `out` from its
// place to the end. `days`, `numbers` and `text` are lent to the request's call.
pub fn look(
    index: &[u16; INDEX],
    room: usize,
    line: &[u8],
    days: &mut [u16; DAYS],
    numbers: &mut [u16; ROOM],
    text: &[u8; ROOM],
    out: &mut [u8; OUT],
) -> Looked
    requires { Published index.now }
    ensures { Looks (blocks index.now) room line.now days.old numbers.old text.now out.old result days.new numbers.new out.new }
{
    let request = request_lines::parse(line, days);
    look_at(index, room.min(ROOM), request, days, numbers, text, out)
}
