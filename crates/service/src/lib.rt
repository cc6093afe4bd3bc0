// The service: the standing list with its journal, the published index, and the calls of document 01.
#![tactic(auto)]

ghost use Rattle.std.specs.Prelude.{◌≡◌};
ghost use Rattle.register.specs.Text.{read_text};
ghost use Rattle.model.specs.Model.{fresh};
ghost use Rattle.outcomes.specs.Outcomes.{asking};
ghost use Rattle.service.specs.Places.{fresh_service};
ghost use Rattle.service.specs.Service.{blocks, Valid, Represents, Given, keeping, Met, Changes, Publishes, Wrote, Begins, begun_in};
ghost use Rattle.service.specs.Packed.{unpacked, Packs};
ghost use Rattle.service.specs.Clauses.{Beside};

use model::Call;
use outcomes::Outcome;
use register::Refused;
use stabbing::INDEX;
use standing::Standing;
use standing::words::STANDING;
use telling::{told, wrote};

// What a service keeps: the standing list with its journal. The field is private: other code has a service only from the calls.
#[derive(Clone, Copy)]
pub struct Service {
    standing: Standing,
}

#[derive(Clone, Copy)]
pub struct Stepped {
    pub service: Service,
    pub outcome: Outcome,
}

// What reading a register gives: the service, and where the text is refused, why and at which line.
#[derive(Clone, Copy)]
pub struct Started {
    pub service: Service,
    pub outcome: Result<(), Refused>,
}

// ---- The beginning

// A fresh service: nothing stands, nothing is published, and there is no past.
pub fn fresh(index: &mut [u16; INDEX]) -> Service
    ensures represents { Represents result (blocks index.new) fresh }
    ensures value { result ≡ fresh_service }
{
    list_publishing::fresh(index);
    Service {
        standing: standing::fresh(),
    }
}

// The service that a register text makes; a refused text makes a fresh one.
pub fn read(text: &[u8], index: &mut [u16; INDEX]) -> Started
    ensures { Begins (read_text text.now) (begun_in result) (blocks index.new) }
{
    list_publishing::fresh(index);
    match register_read::read(text) {
        Ok(got) => Started {
            service: Service {
                standing: standing::loaded(got),
            },
            outcome: Ok(()),
        },
        Err(refused) => Started {
            service: Service {
                standing: standing::fresh(),
            },
            outcome: Err(refused),
        },
    }
}

// ---- Edits: the index is not touched

// An edit or a take back: enter puts a spell in, amend replaces the spell of its number by the given one, strike removes the spell of a
// number, and by take back the standing list becomes the front of the past, which loses it. Any other call leaves the service as it was.
pub fn edit(service: Service, call: Call) -> Stepped
    requires { Valid service }
    ensures { Changes service call result }
{
    let e = standing::edit(service.standing, call);
    Stepped {
        service: Service {
            standing: e.standing,
        },
        outcome: told(e.outcome),
    }
}

// ---- Publish and writing

// The published list becomes the standing list with the rule's days, and what is told of it.
fn published(service: Service, rule: u16, index: &mut [u16; INDEX]) -> Outcome
    requires { Valid service }
    ensures { Publishes service rule (blocks index.old) (keeping service result) (blocks index.new) }
{
    told(list_publishing::publish(service.standing, rule, index))
}

// The published list becomes the standing list with the rule's days. The index may hold anything beforehand. Check: 14.
pub fn publish(service: Service, rule: u16, index: &mut [u16; INDEX]) -> Stepped
    requires { Valid service }
    ensures { Publishes service rule (blocks index.old) result (blocks index.new) }
{
    let outcome = published(service, rule, index);
    Stepped { service, outcome }
}

// The text of the standing list, into the first places of the lent list.
pub fn write(service: Service, text: &mut [u8]) -> Outcome
    requires { Valid service }
    ensures { Wrote service text.old result text.new }
{
    wrote(standing::write(service.standing, text))
}

// ---- Any call

// What a call does beside its edit, which gave the outcome o: a publish, a writing or a question answers by itself.
fn beside(
    service: Service,
    index: &mut [u16; INDEX],
    call: Call,
    o: Outcome,
    dates: &[u16],
    numbers: &mut [u16],
    text: &mut [u8],
) -> Outcome
    requires { Given service (blocks index.old) }
    ensures { Beside service (blocks index.old) call o dates.now numbers.old text.old result (blocks index.new) numbers.new text.new }
{
    match call {
        Call::Enter(_) | Call::Amend(_) | Call::Strike(_) | Call::TakeBack => o,
        Call::Publish(rule) => published(service, rule, index),
        Call::Write => write(service, text),
        Call::Ask(question) => questions::ask(index, question, dates, numbers),
    }
}

// Any of the calls, with the lists that it is lent: the days of a days question, a list for spell numbers, one for a text.
pub fn step(
    service: Service,
    index: &mut [u16; INDEX],
    call: Call,
    dates: &[u16],
    numbers: &mut [u16],
    text: &mut [u8],
) -> Stepped
    requires { Given service (blocks index.old) }
    ensures { Met service (blocks index.old) (asking call dates.now numbers.old text.old) result (blocks index.new) numbers.new text.new }
{
    let e = edit(service, call);
    let outcome = beside(service, index, call, e.outcome, dates, numbers, text);
    Stepped {
        service: e.service,
        outcome,
    }
}

// ---- In words

// How many words of 16 bits a service takes: those of its standing list.
pub const SERVICE: usize = STANDING;

// The words of a service, which read back as it.
pub fn pack(service: Service, out: &mut [u16; SERVICE])
    requires { Valid service }
    ensures { Packs service out.new }
{
    standing::words::pack(service.standing, out);
}

// The service of any words.
pub fn unpack(words: &[u16; SERVICE]) -> Service
    ensures { result ≡ unpacked words.now }
{
    Service {
        standing: standing::words::unpack(words),
    }
}
