// A whole coded list of calls, run through the public functions of `service` alone: its claim follows from their contracts.
#![tactic(auto)]

ghost use Rattle.std.specs.Prelude.{◌≡◌, ◌+◌, ◌-◌, ◌*◌, ◌≤◌, length};
ghost use Rattle.service.specs.Service.{blocks, Given};
ghost use Rattle.coding.specs.Coded.{code_width, result_width, code_at};
ghost use Rattle.coding.specs.Clauses.{Room};
ghost use Rattle.replay.specs.Replayed.{Answered, Replayed, played_in};
ghost use Rattle.replay.specs.Clauses.{tell_at, Makes};

use coding::Code;
use model::Call;
use outcomes::Outcome;
use register::Refused;
use service::Service;
use stabbing::INDEX;

// How many words code a call, and how many results a call has.
const CODE: usize = 10;

const RESULT: usize = 5;

// What a replayed list gives beside its lists: whether the reading that it began with was refused, why and at which line, and how many
// calls were made.
#[derive(Clone, Copy, Debug, PartialEq, Eq)]
pub struct Ran {
    pub outcome: Result<(), Refused>,
    pub made: usize,
}

#[tactic(auto, unfolding(coding::specs::Coded::code_at))]
fn code_at(codes: &[u64], k: usize) -> Code
    requires { code_width * k + code_width ≤ length codes.now }
    ensures { result ≡ code_at codes.now k }
{
    let at = CODE * k;
    Code {
        op: codes[at],
        number: decoding::low(codes[at + 1]),
        candidate: decoding::low(codes[at + 2]),
        first: decoding::low(codes[at + 3]),
        last: decoding::low(codes[at + 4]),
        kind: codes[at + 5],
        value: codes[at + 6],
        days: codes[at + 7] as usize,
        numbers: codes[at + 8] as usize,
        text: codes[at + 9] as usize,
    }
}

// ---- The list of calls

// A call's results in their places.
fn tell(results: &mut [u64], k: usize, o: Outcome)
    requires { result_width * k + result_width ≤ length results.old }
    ensures { results.new ≡ tell_at k o results.old }
{
    let at = RESULT * k;
    results[at..at + RESULT].copy_from_slice(&[
        u64::from(o.refusal),
        o.count as u64,
        o.comparisons as u64,
        o.length as u64,
        o.ticked as u64,
    ]);
}

// The places of the lists of days, numbers and text from which on no call was lent any.
#[derive(Clone, Copy, Debug, PartialEq, Eq)]
struct Places {
    days: usize,
    numbers: usize,
    text: usize,
}

// The service after a call, and the places after those that it was lent.
#[derive(Clone, Copy)]
struct Made {
    service: Service,
    next: Places,
}

// The call of a code, made as the k-th: it is lent the lists' places from `at` on, as many as its code says.
fn make(
    service: Service,
    index: &mut [u16; INDEX],
    call: Call,
    c: Code,
    k: usize,
    at: Places,
    days: &[u16],
    results: &mut [u64],
    numbers: &mut [u16],
    text: &mut [u8],
) -> Made
    requires given { Given service (blocks index.old) }
    requires at_in_bounds { (at.days ≤ length days.now) × (at.numbers ≤ length numbers.old) × (at.text ≤ length text.old) }
    requires room { Room c (length days.now - at.days) (length numbers.old - at.numbers) (length text.old - at.text) }
    requires result_width_in_bounds { result_width * k + result_width ≤ length results.old }
    ensures { Makes service (blocks index.old) call c k at days.now results.old numbers.old text.old result (blocks index.new) results.new numbers.new text.new }
{
    let next = Places {
        days: at.days + c.days,
        numbers: at.numbers + c.numbers,
        text: at.text + c.text,
    };
    let r = service::step(
        service,
        index,
        call,
        &days[at.days..next.days],
        &mut numbers[at.numbers..next.numbers],
        &mut text[at.text..next.text],
    );
    tell(results, k, r.outcome);
    Made {
        service: r.service,
        next,
    }
}

// The calls made on a service, and how many.
fn calls(
    mut service: Service,
    index: &mut [u16; INDEX],
    codes: &[u64],
    days: &[u16],
    results: &mut [u64],
    numbers: &mut [u16],
    text: &mut [u8],
) -> usize
    requires { Given service (blocks index.old) }
    ensures { Answered service (blocks index.old) codes.now days.now results.old numbers.old text.old result results.new numbers.new text.new }
{
    let whole = (codes.len() / CODE).min(results.len() / RESULT);
    let mut at = Places {
        days: 0,
        numbers: 0,
        text: 0,
    };
    for k in 0..whole {
        let c = code_at(codes, k);
        let Some(call) = decoding::next_of(
            c,
            days.len() - at.days,
            numbers.len() - at.numbers,
            text.len() - at.text,
        ) else {
            return k;
        };
        let r = make(service, index, call, c, k, at, days, results, numbers, text);
        service = r.service;
        at = r.next;
    }
    whole
}

// A whole list of calls, begun on a fresh service or on a register's bytes, a refused reading included.
pub fn run(
    fresh: bool,
    register: &[u8],
    codes: &[u64],
    days: &[u16],
    results: &mut [u64],
    numbers: &mut [u16],
    text: &mut [u8],
) -> Ran
    ensures { Replayed fresh register.now codes.now days.now results.old numbers.old text.old (played_in result) results.new numbers.new text.new }
{
    let mut index = [0u16; INDEX];
    if fresh {
        let service = service::fresh(&mut index);
        return Ran {
            outcome: Ok(()),
            made: calls(service, &mut index, codes, days, results, numbers, text),
        };
    }
    let r = service::read(register, &mut index);
    Ran {
        outcome: r.outcome,
        made: calls(r.service, &mut index, codes, days, results, numbers, text),
    }
}
