// A published row by its spell number. Numbers fall into buckets: each bucket leads to its latest row, and each row to the one before
// it in its bucket, so that a search goes along the rows of one bucket alone.
#![tactic(auto)]

ghost use Rattle.std.specs.Prelude.{◌≡◌, ◌≤◌};
ghost use Rattle.stabbing.specs.Index.{Block, mark_in};

use stabbing::{BUCKET, BUCKETS, INDEX, LOWER};

// The mark of the row with that number; 0 where none has it. Where two rows have it, as in no published list, the latest.
pub fn find(index: &[u16; INDEX], number: u16) -> usize
    requires { Block index.now }
    ensures value { result ≡ mark_in index.now number }
    ensures upper_bound { result ≤ 1024 }
{
    let mut m = usize::from(index[usize::from(number) % BUCKETS + BUCKET]);
    while 0 < m {
        let p = m - 1;
        if index[p] == number {
            return m;
        }
        m = usize::from(index[p + LOWER]);
    }
    m
}
