// What a request wants of the service, carried out: from a call or a text to its answer's bytes.
#![tactic(auto)]

ghost use Rattle.std.specs.Prelude.{◌≡◌, ℕ, ◌≤◌, length, take};
ghost use Rattle.requests.specs.Requests.{asks_call};
ghost use Rattle.conversations.specs.Answering.{Restarted, Answers, Carries, asked_in, room_of};
ghost use Rattle.conversations.specs.Clauses.{CallTurn};
ghost use Rattle.outcomes.specs.Outcomes.{asking};
ghost use Rattle.service.specs.Service.{blocks, Given};

use conversations::{Answered, DAYS, ROOM, Wanted};
use model::Call;
use refusal::Refusal;
use replies::OUT;
use service::Service;
use stabbing::INDEX;

// The most bytes of a register text.
const LONGEST_TEXT: u64 = 65536;

// A call, lent lists of `room` places.
fn call_turn(
    service: Service,
    index: &mut [u16; INDEX],
    room: usize,
    call: Call,
    days: &[u16],
    numbers: &mut [u16],
    text: &mut [u8],
    out: &mut [u8; OUT],
) -> Answered
    requires given { Given service (blocks index.old) }
    requires room_bound { (room ≤ 65536) × (length numbers.old ≡ room) × (length text.old ≡ room) }
    ensures { CallTurn service (blocks index.old) (asking call days.now numbers.old text.old) room out.old result (blocks index.new) numbers.new text.new out.new }
{
    let r = service::step(service, index, call, days, numbers, text);
    Answered {
        service: r.service,
        room,
        place: reply_calls::put_reply(out, call, r.outcome, numbers, text),
    }
}

// The same with the first places of the lists that are lent to a request, and its days in the first k of `days`.
fn carry_call(
    service: Service,
    index: &mut [u16; INDEX],
    room: usize,
    call: Call,
    k: usize,
    days: &[u16],
    numbers: &mut [u16],
    text: &mut [u8],
    out: &mut [u8; OUT],
) -> Answered
    requires given { Given service (blocks index.old) }
    requires room_bound { (room ≤ 65536) × (k ≤ length days.now) }
    requires numbers_len { (length numbers.old ≡ 65536) × (length text.old ≡ 65536) }
    ensures { Carries service (blocks index.old) room (asks_call call (take k days.now)) numbers.old text.old out.old result (blocks index.new) numbers.new text.new out.new }
{
    call_turn(
        service,
        index,
        room,
        call,
        &days[..k],
        &mut numbers[..room],
        &mut text[..room],
        out,
    )
}

// A reading of so many bytes, whatever service was there before; those of a text above 65,536 bytes are not looked at.
pub fn restart(
    index: &mut [u16; INDEX],
    room: usize,
    length: u64,
    payload: &[u8],
    out: &mut [u8; OUT],
) -> Answered
    ensures { Restarted (room_of room) length payload.now out.old result (blocks index.new) out.new }
{
    let room = room.min(ROOM);
    if length > LONGEST_TEXT {
        return Answered {
            service: service::fresh(index),
            room,
            place: reply_lines::put_refused_line(out, Refusal::Malformed.number(), 0),
        };
    }
    let r = service::read(payload, index);
    let place = match r.outcome {
        Ok(()) => reply_lines::put_ok(out),
        Err(refused) => {
            reply_lines::put_refused_line(out, refused.refusal.number(), refused.line)
        }
    };
    Answered {
        service: r.service,
        room,
        place,
    }
}

// Carries out what is asked of the service: a call whose days are the first of `days`, or a reading of the payload.
pub fn carry(
    service: Service,
    index: &mut [u16; INDEX],
    room: usize,
    wanted: Wanted,
    payload: &[u8],
    days: &[u16; DAYS],
    numbers: &mut [u16; ROOM],
    text: &mut [u8; ROOM],
    out: &mut [u8; OUT],
) -> Answered
    requires { Given service (blocks index.old) }
    ensures { Answers service (blocks index.old) (room_of room) (asked_in wanted days.now) payload.now numbers.old text.old out.old result (blocks index.new) numbers.new text.new out.new }
{
    match wanted {
        Wanted::Call(call, k) => {
            let lent = room.min(ROOM);
            let few = k.min(DAYS);
            carry_call(service, index, lent, call, few, days, numbers, text, out)
        }
        Wanted::Read(n) => restart(index, room, n, payload, out),
    }
}
