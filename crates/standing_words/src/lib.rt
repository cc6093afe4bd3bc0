// A standing list edited in its words, where they lie: nothing is unpacked, and no word is written that an edit does not change. The words are those
// of `standing::words`: seven for each of 1,024 places, nine for each of the journal's 64, the count and the depth.
#![tactic(auto)]

ghost use Rattle.std.specs.Prelude.{◌≡◌, ◌≤◌, is_some, unwrap_or, length, take};
ghost use Rattle.refusal.specs.Numbers.{number_in};
ghost use Rattle.spell.specs.Blank.{blank};
ghost use Rattle.journal.specs.Journal.{blank_entry};
ghost use Rattle.packing.specs.Layout.{spells_length, journal_length, standing_length};
ghost use Rattle.spell_places.specs.Search.{place_of, found_in};
ghost use Rattle.standing.specs.Standing.{Wf};
ghost use Rattle.standing.specs.Packed.{unpacked};
ghost use Rattle.standing_words.specs.Edits.{EditedIn};
ghost use Rattle.standing_words.specs.Clauses.{spells_of, TakesOut, PutsIn, Exchanges, Notes, Planned};

use journal::Undo;
use model::Call;
use packing::{COUNT, DEPTH, ENTRY, LAST_ENTRY, Packed, SPELL, SPELLS};
use plans::Plan;
use refusal::Refusal;
use spell::Spell;
use spell_places::Located;
use standing::words::STANDING;

// ---- The spells

// The spell of the number k among the first n.
fn find(words: &[u16], n: usize, k: u16) -> Located
    requires n_bound { n ≤ 1024 }
    requires words_len { length words.now ≡ spells_length }
    ensures { result ≡ found_in k (take n (spells_of words.now)) }
{
    for i in 0..n {
        if words[SPELL * i] == k {
            let spell = Spell::at(words, SPELL * i);
            return Located { place: i, spell };
        }
    }
    Located {
        place: n,
        spell: spell_checks::blank(),
    }
}

// Where s goes among the first m.
fn place(words: &[u16], m: usize, s: Spell) -> usize
    requires m_bound { m ≤ 1024 }
    requires spells_length_in_bounds { spells_length ≤ length words.now }
    ensures value { result ≡ place_of s (take m (spells_of words.now)) }
    ensures upper_bound { result ≤ m }
{
    for i in 0..m {
        let x = Spell::at(words, SPELL * i);
        if !spell_checks::earlier(x, s) {
            return i;
        }
    }
    m
}

// The spell at p of the first n goes, where one stands there: those behind it move down.
fn take_out(words: &mut [u16], n: usize, p: usize)
    requires n_bound { n ≤ 1024 }
    requires words_len { length words.old ≡ spells_length }
    ensures { TakesOut n p words.old words.new }
{
    if p < n {
        words.copy_within(SPELL * (p + 1)..SPELL * n, SPELL * p);
    }
}

// A spell is put in at its place among the first m, where one is given and there is room: those from there on move up.
fn put_in(words: &mut [u16], m: usize, put: Option<Spell>)
    requires m_bound { m ≤ 1024 }
    requires words_len { length words.old ≡ spells_length }
    ensures { PutsIn m (is_some put) (unwrap_or put blank) words.old words.new }
{
    if let Some(s) = put
        && m < 1024
    {
        let q = place(words, m, s);
        words.copy_within(SPELL * q..SPELL * m, SPELL * (q + 1));
        s.put(words, SPELL * q);
    }
}

// Both: the spell at p goes, and one is put in.
fn change(words: &mut [u16], n: usize, p: usize, put: Option<Spell>)
    requires n_bound { n ≤ 1024 }
    requires words_len { length words.old ≡ spells_length }
    ensures { Exchanges n p (is_some put) (unwrap_or put blank) words.old words.new }
{
    take_out(words, n, p);
    let m = standing_list::counted(n, p, false);
    put_in(words, m, put);
}

// ---- The journal

// An entry put at the end of a journal of that depth, where one is noted. Where the journal is full, its oldest entry goes.
fn note(journal: &mut [u16], d: usize, note: Option<Undo>)
    requires { length journal.old ≡ journal_length }
    ensures { Notes d (is_some note) (unwrap_or note blank_entry) journal.old journal.new }
{
    if let Some(e) = note {
        if d < 64 {
            e.put(journal, ENTRY * d);
        } else {
            journal.copy_within(ENTRY.., 0);
            e.put(journal, LAST_ENTRY);
        }
    }
}

// ---- The edit

// The plan of a call, on small values.
fn plan_in(words: &[u16], call: Call) -> Result<Plan, Refusal>
    requires words_len { length words.now ≡ standing_length }
    requires wf { Wf (unpacked words.now) }
    ensures { Planned words.now call result }
{
    let n = usize::from(words[COUNT]);
    let d = usize::from(words[DEPTH]);
    let e = Undo::at(&words[SPELLS..COUNT], ENTRY * planning::last_place(d));
    let found = find(&words[0..SPELLS], n, planning::number_of(call, e.number));
    planning::planned(call, e, found.place, found.spell, n, d)
}

// What any call makes of the standing list: its plan is carried out on the words; where it is refused, no word is written.
fn edit_in(words: &mut [u16], call: Call) -> Result<(), Refusal>
    requires words_len { length words.old ≡ standing_length }
    requires wf { Wf (unpacked words.old) }
    ensures { EditedIn call words.old (number_in result) words.new }
{
    let plan = plan_in(words, call)?;
    let n = usize::from(words[COUNT]);
    let count = standing_list::counted(n, plan.out, plan.put.is_some()) as u16;
    let depth = planning::deeper(plan.depth, plan.note.is_some()) as u16;
    change(&mut words[0..SPELLS], n, plan.out, plan.put);
    note(&mut words[SPELLS..COUNT], plan.depth, plan.note);
    words[COUNT] = count;
    words[DEPTH] = depth;
    Ok(())
}

// The same on the words of a standing list.
pub fn edit(words: &mut [u16; STANDING], call: Call) -> Result<(), Refusal>
    requires { Wf (unpacked words.old) }
    ensures { EditedIn call words.old (number_in result) words.new }
{
    edit_in(words, call)
}
