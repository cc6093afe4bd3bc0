// The service for other software: functions that C and Rust link. The host lends the memory: a block of words for the service
// and one for the index. Nothing is allocated and nothing is global.
#![tactic(auto)]

ghost use Rattle.std.specs.Prelude.{◌≡◌, ℕ, List, []};
ghost use Rattle.model.specs.Model.{fresh};
ghost use Rattle.register.specs.Text.{read_text};
ghost use Rattle.service.specs.Places.{fresh_service};
ghost use Rattle.service.specs.Packed.{packed, unpacked};
ghost use Rattle.published_index.specs.Index.{index_of, Published};
ghost use Rattle.questions.specs.Asked.{Asked};
ghost use Rattle.service.specs.Service.{blocks, Valid, Represents, Changed, Changes, Publishes, Wrote, Begins};
ghost use Rattle.hosting.specs.Host.{version, Held, Laid, spell_in, outcome_of, stepped_of, started_of};

use hosting::{Entry, Opened, Reply};
use model::{Call, Question};
use service::SERVICE;
use spell::Spell;
use stabbing::INDEX;
use telling::told;

// ---- The version

// The version of these functions and of the two blocks, as the header and the module for Rust name it.
const VERSION: u32 = 4;

#[unsafe(no_mangle)]
pub extern "C" fn phayaklit_version() -> u32
    ensures { result ≡ version }
{
    VERSION
}

// ---- The beginning

// The index of nobody by itself: a second index, in which a host publishes while the first one is asked.
#[unsafe(no_mangle)]
pub extern "C" fn phayaklit_fresh_index(index: &mut [u16; INDEX])
    ensures { index.new ≡ index_of [] }
{
    list_publishing::fresh(index);
}

// A fresh service: nothing stands, nothing is published, and there is no past.
#[unsafe(no_mangle)]
pub extern "C" fn phayaklit_fresh(words: &mut [u16; SERVICE], index: &mut [u16; INDEX])
    ensures represents { Represents (unpacked words.new) (blocks index.new) fresh }
    ensures laid { Laid words.new }
    ensures words_after { words.new ≡ packed fresh_service }
{
    let service = service::fresh(index);
    service::pack(service, words);
}

// The service that a register text makes; a refused text makes a fresh one.
#[unsafe(no_mangle)]
pub extern "C" fn phayaklit_read(
    text: &[u8],
    words: &mut [u16; SERVICE],
    index: &mut [u16; INDEX],
) -> Opened
    ensures begins { Begins (read_text text.now) (started_of words.new result) (blocks index.new) }
    ensures laid { Laid words.new }
{
    let got = service::read(text, index);
    service::pack(got.service, words);
    let (refusal, line) = match got.outcome {
        Ok(()) => (0, 0),
        Err(refused) => (refused.refusal.number(), refused.line),
    };
    Opened { refusal, line }
}

// ---- Edits: the index is not touched

// Any call, as an edit of the service in the host's words: it is carried out on the words themselves.
fn edit(words: &mut [u16; SERVICE], call: Call) -> Reply
    requires { Held words.old }
    ensures changes { Changes (unpacked words.old) call (stepped_of words.new result) }
    ensures laid { Laid words.old → Laid words.new }
{
    Reply::from(told(standing_words::edit(words, call)))
}

// Put a spell in.
#[unsafe(no_mangle)]
pub extern "C" fn phayaklit_enter(words: &mut [u16; SERVICE], entry: Entry) -> Reply
    requires { Held words.old }
    ensures changed { Changed (unpacked words.old) (Call.Enter (spell_in entry)) (stepped_of words.new result) }
    ensures laid { Laid words.old → Laid words.new }
{
    edit(words, Call::Enter(Spell::from(entry)))
}

// Replace the spell of that number by the given one.
#[unsafe(no_mangle)]
pub extern "C" fn phayaklit_amend(words: &mut [u16; SERVICE], entry: Entry) -> Reply
    requires { Held words.old }
    ensures changed { Changed (unpacked words.old) (Call.Amend (spell_in entry)) (stepped_of words.new result) }
    ensures laid { Laid words.old → Laid words.new }
{
    edit(words, Call::Amend(Spell::from(entry)))
}

// Remove the spell of that number.
#[unsafe(no_mangle)]
pub extern "C" fn phayaklit_strike(words: &mut [u16; SERVICE], number: u16) -> Reply
    requires { Held words.old }
    ensures changed { Changed (unpacked words.old) (Call.Strike number) (stepped_of words.new result) }
    ensures laid { Laid words.old → Laid words.new }
{
    edit(words, Call::Strike(number))
}

// The standing list becomes the front of the past, which loses it.
#[unsafe(no_mangle)]
pub extern "C" fn phayaklit_take_back(words: &mut [u16; SERVICE]) -> Reply
    requires { Held words.old }
    ensures changed { Changed (unpacked words.old) Call.TakeBack (stepped_of words.new result) }
    ensures laid { Laid words.old → Laid words.new }
{
    edit(words, Call::TakeBack)
}

// ---- Publish and writing: the service is read and not written

// The published list becomes the standing list with the rule's days. The index may hold anything beforehand. Check: 14.
#[unsafe(no_mangle)]
pub extern "C" fn phayaklit_publish(
    words: &[u16; SERVICE],
    rule: u16,
    index: &mut [u16; INDEX],
) -> Reply
    requires { Held words.now }
    ensures { Publishes (unpacked words.now) rule (blocks index.old) (stepped_of words.now result) (blocks index.new) }
{
    let service = service::unpack(words);
    let r = service::publish(service, rule, index);
    Reply::from(r.outcome)
}

// The text of the standing list, into the first places of the lent list.
#[unsafe(no_mangle)]
pub extern "C" fn phayaklit_write(words: &[u16; SERVICE], text: &mut [u8]) -> Reply
    requires { Held words.now }
    ensures { Wrote (unpacked words.now) text.old (outcome_of result) text.new }
{
    let service = service::unpack(words);
    Reply::from(service::write(service, text))
}

// ---- Questions: the published index is read where it lies

// Day d: the spells with first ≤ d ≤ last.
#[unsafe(no_mangle)]
pub extern "C" fn phayaklit_day(index: &[u16; INDEX], d: u16, numbers: &mut [u16]) -> Reply
    requires { Published index.now }
    ensures { (days : List ℕ) → Asked index.now (Question.Day d) days numbers.old (outcome_of result) numbers.new }
{
    Reply::from(questions::day(index, d, numbers))
}

// The span from a to b: the spells with first ≤ b and last ≥ a.
#[unsafe(no_mangle)]
pub extern "C" fn phayaklit_span(index: &[u16; INDEX], a: u16, b: u16, numbers: &mut [u16]) -> Reply
    requires { Published index.now }
    ensures { (days : List ℕ) → Asked index.now (Question.Span a b) days numbers.old (outcome_of result) numbers.new }
{
    Reply::from(questions::span(index, a, b, numbers))
}

// The cover of a published spell: the spells with first ≤ its first and last ≥ its last.
#[unsafe(no_mangle)]
pub extern "C" fn phayaklit_cover(index: &[u16; INDEX], number: u16, numbers: &mut [u16]) -> Reply
    requires { Published index.now }
    ensures { (days : List ℕ) → Asked index.now (Question.Cover number) days numbers.old (outcome_of result) numbers.new }
{
    Reply::from(questions::cover(index, number, numbers))
}

// Several days: the spells that contain at least one of them.
#[unsafe(no_mangle)]
pub extern "C" fn phayaklit_days(index: &[u16; INDEX], days: &[u16], numbers: &mut [u16]) -> Reply
    requires { Published index.now }
    ensures { Asked index.now Question.Days days.now numbers.old (outcome_of result) numbers.new }
{
    Reply::from(questions::days(index, days, numbers))
}

// The ticked days of a base day and a mask, whose bit i is the base day + i: the spells that contain at least one of them, and how many
// days are ticked.
#[unsafe(no_mangle)]
pub extern "C" fn phayaklit_mask(
    index: &[u16; INDEX],
    base: u16,
    mask: u64,
    numbers: &mut [u16],
) -> Reply
    requires { Published index.now }
    ensures { (days : List ℕ) → Asked index.now (Question.Mask base mask) days numbers.old (outcome_of result) numbers.new }
{
    Reply::from(questions::mask(index, base, mask, numbers))
}
