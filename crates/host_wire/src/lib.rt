// A request from bytes to bytes for other software, on a host's words: what it asks is answered, and the host is told which word it was
// and whether it changed the state.
#![tactic(auto)]

ghost use Rattle.std.specs.Prelude.{◌≡◌, ℕ, ◌≤◌, ◌<◌, length};
ghost use Rattle.std.specs.Int.{from_bool};
ghost use Rattle.service.specs.Packed.{unpacked};
ghost use Rattle.service.specs.Service.{blocks, Given, Valid};
ghost use Rattle.conversations.specs.Answering.{asked_in};
ghost use Rattle.sharing.specs.Words.{question_word, call_word, word_in, power_of, changed_at};
ghost use Rattle.sharing.specs.Carrying.{held_at, Requested};
ghost use Rattle.host_wire.specs.Powers.{number_of};
ghost use Rattle.sharing.specs.Clauses.{wanted_word, EditTurn, EditsIn, Changing, RequestedOf};

use conversations::{DAYS, Looked, ROOM, Wanted};
use model::{Call, Question};
use replies::OUT;
use requests::Request;
use service::SERVICE;
use sharing::Carried;
use stabbing::INDEX;
use telling::told;

// ---- The words by number: 0 is a line of no form, 1 `room`, 2 `read`; those from 16 to 31 change the state, from 32 on they only read

fn question_word(question: Question) -> u32
    ensures { result ≡ question_word question }
{
    32 + u32::from(decoding::question_number(question))
}

fn call_word(call: Call) -> u32
    ensures { result ≡ call_word call }
{
    match call {
        Call::Enter(_) => 16,
        Call::Amend(_) => 17,
        Call::Strike(_) => 18,
        Call::TakeBack => 19,
        Call::Publish(_) => 20,
        Call::Write => 32,
        Call::Ask(question) => question_word(question),
    }
}

fn word_of(request: Request) -> u32
    ensures { result ≡ word_in request }
{
    match request {
        Request::Call(call, _) => call_word(call),
        Request::Room(_) => 1,
        Request::Read(_) => 2,
        Request::Malformed => 0,
    }
}

// The word of what is wanted of the service.
fn wanted_word(wanted: Wanted) -> u32
    ensures { result ≡ wanted_word wanted }
{
    match wanted {
        Wanted::Call(call, _) => call_word(call),
        Wanted::Read(_) => 2,
    }
}

// What a word may do to the state: nothing, change it, or replace it.
#[derive(Clone, Copy, Debug, PartialEq, Eq)]
enum Power {
    Reads,
    Changes,
    Replaces,
}

impl Power {
    // Its number, as a host says what is allowed.
    fn number(self) -> u32
        ensures { result ≡ number_of self }
    {
        match self {
            Power::Reads => 0,
            Power::Changes => 1,
            Power::Replaces => 2,
        }
    }
}

fn power_of(word: u32) -> Power
    ensures { number_of result ≡ power_of word }
{
    match word {
        2 => Power::Replaces,
        16..=31 => Power::Changes,
        _ => Power::Reads,
    }
}

// Whether a request changed the state: a reading always, another whose word may do so where it is answered `ok`.
fn changed_at(power: Power, out: &[u8], place: usize) -> bool
    ensures { from_bool result ≡ changed_at (number_of power) out.now place }
{
    match power {
        Power::Reads => false,
        Power::Changes => field_bytes::is_at(out, place, b'o'),
        Power::Replaces => true,
    }
}

// ---- What is wanted of the service

// One that does more than is allowed: the host is told its word.
fn held_back(word: u32, room: usize) -> Carried
    ensures { result ≡ held_at word room }
{
    Carried {
        word,
        changed: 0,
        room,
        place: OUT,
    }
}

// An edit, made on the words where they lie. Its answer lists nothing: the lent lists, of which it has the first places, are looked at only.
fn edit_turn(
    words: &mut [u16; SERVICE],
    room: usize,
    call: Call,
    numbers: &[u16],
    text: &[u8],
    out: &mut [u8; OUT],
) -> usize
    requires valid { Valid (unpacked words.old) }
    requires call_bound { call_word call < 20 }
    requires room_bound { (room ≤ 65536) × (room ≤ length numbers.now) × (room ≤ length text.now) }
    ensures { EditTurn call words.old room numbers.now text.now out.old result words.new out.new }
{
    let outcome = told(standing_words::edit(words, call));
    reply_calls::put_reply(out, call, outcome, &numbers[..room], &text[..room])
}

// An edit with the room that it has, and what the host is told.
fn edit(
    words: &mut [u16; SERVICE],
    room: usize,
    word: u32,
    call: Call,
    numbers: &[u16; ROOM],
    text: &[u8; ROOM],
    out: &mut [u8; OUT],
) -> Carried
    requires valid { Valid (unpacked words.old) }
    requires word_value { word ≡ call_word call }
    requires word_bound { word < 20 }
    ensures { (k : ℕ) → EditsIn (Wanted.Call call k) words.old room numbers.now text.now out.old result words.new out.new }
{
    let room = room.min(ROOM);
    let place = edit_turn(words, room, call, numbers, text, out);
    Carried {
        word,
        changed: u32::from(changed_at(Power::Changes, out, place)),
        room,
        place,
    }
}

// Anything else: the service's words are written where it was changed. It is a function of its own in the compiled program, too: with its frame, of
// several copies of the service, a request that wants none would take twice as long.
#[inline(never)]
fn change(
    words: &mut [u16; SERVICE],
    index: &mut [u16; INDEX],
    room: usize,
    word: u32,
    power: Power,
    wanted: Wanted,
    payload: &[u8],
    days: &[u16; DAYS],
    numbers: &mut [u16; ROOM],
    text: &mut [u8; ROOM],
    out: &mut [u8; OUT],
) -> Carried
    requires given { Given (unpacked words.old) (blocks index.old) }
    requires word_value { (word ≡ wanted_word wanted) × (number_of power ≡ power_of word) }
    ensures { Changing (asked_in wanted days.now) words.old (blocks index.old) room payload.now numbers.old text.old out.old result words.new (blocks index.new) numbers.new text.new out.new }
{
    let service = service::unpack(words);
    let r = wire::carry(
        service, index, room, wanted, payload, days, numbers, text, out,
    );
    let changed = changed_at(power, out, r.place);
    if changed {
        service::pack(r.service, words);
    }
    Carried {
        word,
        changed: u32::from(changed),
        room: r.room,
        place: r.place,
    }
}

// The words below this one and from 16 on are edits, which are made on the words of the service where they lie.
const AFTER_EDITS: u32 = 20;

// What is wanted of the service, where its word does no more than is allowed.
fn carry(
    words: &mut [u16; SERVICE],
    index: &mut [u16; INDEX],
    room: usize,
    allowed: u32,
    wanted: Wanted,
    payload: &[u8],
    days: &[u16; DAYS],
    numbers: &mut [u16; ROOM],
    text: &mut [u8; ROOM],
    out: &mut [u8; OUT],
) -> Carried
    requires { Given (unpacked words.old) (blocks index.old) }
    ensures { RequestedOf (asked_in wanted days.now) words.old (blocks index.old) room allowed payload.now numbers.old text.old out.old result words.new (blocks index.new) numbers.new text.new out.new }
{
    let word = wanted_word(wanted);
    let power = power_of(word);
    if power.number() > allowed {
        return held_back(word, room);
    }
    match wanted {
        Wanted::Call(call, _) if word < AFTER_EDITS => edit(
            words, room, word, call, numbers, text, out,
        ),
        _ => change(
            words, index, room, word, power, wanted, payload, days, numbers, text, out,
        ),
    }
}

// ---- A request

// Carries a request out whose word does no more than is allowed: 0 nothing to the state, 1 a change, 2 a reading too. One that does more
// leaves everything as it was, its days aside, and the host is told its word: it answers then itself, or asks again. The answer stands
// in `out` from the place on to its end. `days`, `numbers` and `text` are lent to the request's call.
#[unsafe(no_mangle)]
pub extern "C" fn phayaklit_request(
    words: &mut [u16; SERVICE],
    index: &mut [u16; INDEX],
    room: usize,
    allowed: u32,
    line: &[u8],
    payload: &[u8],
    days: &mut [u16; DAYS],
    numbers: &mut [u16; ROOM],
    text: &mut [u8; ROOM],
    out: &mut [u8; OUT],
) -> Carried
    requires { Given (unpacked words.old) (blocks index.old) }
    ensures { Requested words.old (blocks index.old) room allowed line.now payload.now days.old numbers.old text.old out.old result words.new (blocks index.new) days.new numbers.new text.new out.new }
{
    match looking::look(index, room, line, days, numbers, text, out) {
        Looked::Done(request, room, place) => Carried {
            word: word_of(request),
            changed: 0,
            room,
            place,
        },
        Looked::Wants(wanted) => carry(
            words, index, room, allowed, wanted, payload, days, numbers, text, out,
        ),
    }
}
