// The standing list: an array of spells in the order, of which the first `count` stand, with a journal of the last 64 edits.
#![tactic(auto)]

ghost use Rattle.std.specs.Prelude.{map, ◌≡◌, cond, is_some, unwrap_or};
ghost use Rattle.spell_places.specs.List.{LaidOut};
ghost use Rattle.journal.specs.Journal.{blank_entry, noting};
ghost use Rattle.standing.specs.Places.{loaded_of};
ghost use Rattle.rules.specs.Rules.{cut};
ghost use Rattle.register.specs.Text.{write_all};
ghost use Rattle.register.specs.Answers.{Writes, reading_in, written_in};
ghost use Rattle.standing.specs.Standing.{list_of, Wf, Fresh, Does, after_of};

use journal::Undo;
use model::Call;
use refusal::Refusal;
use register::Reading;
use spell::Spell;

// words.rt: the standing list in words of 16 bits, and back.
pub mod words;

// The journal has its oldest entry first and the newest at `depth - 1`. Its fields are private: other crates have a
// standing list only from the calls.
#[derive(Clone, Copy)]
pub struct Standing {
    spells: [Spell; 1024],
    count: usize,
    journal: [Undo; 64],
    depth: usize,
}

// What an edit gives: the standing list after it, and whether it is refused.
#[derive(Clone, Copy)]
pub struct Edited {
    pub standing: Standing,
    pub outcome: Result<(), Refusal>,
}

// Nothing stands, and there is no past.
pub fn fresh() -> Standing
    ensures { Fresh result }
{
    Standing {
        spells: [spell_checks::blank(); 1024],
        count: 0,
        journal: [journal::none(); 64],
        depth: 0,
    }
}

// ---- The edits

// What any call makes of a standing list: an edit and a take back change it, a refused or idle one and any other call do not. What it does is
// planned on small values first, and then carried out in place, whatever the call, a refused one too: each way that ends in a standing list of
// its own is a copy more.
pub fn edit(st: Standing, call: Call) -> Edited
    requires { Wf st }
    ensures { Does st call (after_of result) }
{
    let n = st.count;
    let d = st.depth;
    // the newest entry; where there is none, what the first place holds
    let e = st.journal[planning::last_place(d)];
    let found = standing_list::find(&st.spells, n, planning::number_of(call, e.number));
    let planned = planning::planned(call, e, found.place, found.spell, n, d);
    let plan = planned.unwrap_or(planning::unchanged(d));
    let mut standing = st;
    standing_list::change(&mut standing.spells, n, plan.out, plan.put);
    standing.count = standing_list::counted(n, plan.out, plan.put.is_some());
    note(&mut standing.journal, plan.depth, plan.note);
    standing.depth = planning::deeper(plan.depth, plan.note.is_some());
    Edited {
        standing,
        outcome: planned.and(Ok(())),
    }
}

// An entry put at the end, where one is noted.
fn note(journal: &mut [Undo; 64], depth: usize, note: Option<Undo>)
    ensures { journal.new ≡ cond (is_some note) (noting (unwrap_or note blank_entry) depth journal.old) journal.old }
{
    if let Some(e) = note {
        standing_journal::push(journal, depth, e);
    }
}

// ---- The register text

// The spells of a reading stand, and there is no past.
pub fn loaded(got: Reading) -> Standing
    ensures { result ≡ loaded_of (reading_in (Ok got)) }
{
    let spells = got.spells;
    let journal = fresh().journal;
    Standing {
        spells,
        count: got.count,
        journal,
        depth: 0,
    }
}

// The text of the standing list, into the first places of `out`.
pub fn write(st: Standing, out: &mut [u8]) -> Result<usize, Refusal>
    requires { Wf st }
    ensures { Writes (write_all (list_of st)) out.old (written_in result) out.new }
{
    register_write::write(st.spells, st.count, out)
}

// ---- What publish reads

// The numbers, candidates, first days and, by a rule, last days of the standing spells, in the first places of four columns; returns their count.
pub fn columns(
    st: Standing,
    rule: u16,
    number: &mut [u16; 1024],
    candidate: &mut [u16; 1024],
    first: &mut [u16; 1024],
    last: &mut [u16; 1024],
) -> usize
    requires { Wf st }
    ensures { LaidOut (map (cut rule) (list_of st)) result number.old candidate.old first.old last.old number.new candidate.new first.new last.new }
{
    standing_list::columns(&st.spells, st.count, rule, number, candidate, first, last)
}
