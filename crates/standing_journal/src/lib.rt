// The journal of edits as an array, of which the first `depth` places hold entries, the oldest first.
#![tactic(auto)]

ghost use Rattle.std.specs.Prelude.{◌≡◌};
ghost use Rattle.journal.specs.Journal.{noting};

use journal::Undo;

// The entry e put at the end. Where the journal is full, its oldest entry goes and the others move down by one.
pub fn push(journal: &mut [Undo; 64], depth: usize, e: Undo)
    ensures { journal.new ≡ noting e depth journal.old }
{
    if depth < 64 {
        journal[depth] = e;
    } else {
        journal.copy_within(1.., 0);
        journal[63] = e;
    }
}
