// The builder of the index: rows that can be published become the block that the questions read. It finds the links in one
// sweep, the tables by day in another, and lays the block column by column.
#![tactic(auto)]

ghost use Rattle.std.specs.Prelude.{◌≡◌, ◌&&◌, ◌++◌, ◌+◌, ◌≤◌, ◌<◌, length, take};
ghost use Rattle.stabbing.specs.Tree.{day_at};
ghost use Rattle.stabbing.specs.Index.{capacity, day_count, parent_column, start_table, bucket_table, row_count, index_length, last_of, row_ok, may_follow, rows_ok, column, block_of};
ghost use Rattle.stabbing_index.specs.Build.{Builds};
ghost use Rattle.stabbing_index.specs.Clauses.{head_at, ColumnsOf, ClimbAsks, ClimbGives, HeadAsks, LinkedOf, ChainedOf, AdvanceAsks, latest_in, DaysAsks, DayAsks, start_in, DayedOf, Extends, name_words, Named, mark_words, link_words, day_words, RowsOf};

use stabbing::{
    BEGUN, BUCKET, BUCKETS, CHILD, FIRST, INDEX, LAST, LEFT, LOWER, NEXT, NUMBER, PARENT, ROWS,
    START,
};

// ---- rows that can be published

// A row with the days g and m is right and may follow one with the days f and l.
fn follows(f: u16, l: u16, g: u16, m: u16) -> bool
    ensures { result ≡ row_ok g m && may_follow f l g m }
{
    1 <= g && g <= m && m <= 4000 && (f, l) <= (g, m)
}

// The first n rows are right and in the order.
fn in_order(first: &[u16], last: &[u16], n: usize) -> bool
    requires n_in_bounds { n ≤ length first.now }
    requires n_in_bounds_2 { n ≤ length last.now }
    ensures { result ≡ rows_ok (take n first.now) (take n last.now) }
{
    let mut f = 0;
    let mut l = 0;
    for k in 0..n {
        if !follows(f, l, first[k], last[k]) {
            return false;
        }
        f = first[k];
        l = last[k];
    }
    true
}

// ---- the links

// The rows that are laid: the first n words of the columns of days.
#[derive(Clone, Copy)]
struct Rows<'a> {
    first: &'a [u16; 1024],
    last: &'a [u16; 1024],
    n: usize,
}

// A head's parent and its left sibling, as marks.
#[derive(Clone, Copy)]
struct Way {
    pub parent: usize,
    pub left: usize,
}

// Is the position k of n a head: the last of its first day?
fn is_head(rows: Rows, k: usize) -> bool
    requires k_lt_n { k < rows.n }
    requires n_bound { rows.n ≤ 1024 }
    ensures { result ≡ head_at rows.entry.first.now rows.entry.n k }
{
    k + 1 == rows.n || rows.first[k] != rows.first[k + 1]
}

// From the mark m upward to the nearest that lasts to l; the head passed last, or 0 where none is passed.
fn climb(rows: Rows, parent: &[u16; 1024], l: u16, m: usize) -> Way
    requires { ClimbAsks rows.first.now rows.last.now rows.n parent.now m }
    ensures { ClimbGives rows.entry.first.now rows.entry.last.now rows.entry.n l m 0 result }
{
    let mut up = m;
    let mut left = 0;
    while 0 < up && rows.last[up - 1] < l {
        left = up;
        up = usize::from(parent[up - 1]);
    }
    Way { parent: up, left }
}

// The links of the head k, after those of the heads before it, the latest of which has the mark `prev`.
fn link_head(
    rows: Rows,
    k: usize,
    prev: usize,
    parent: &mut [u16; 1024],
    left: &mut [u16; 1024],
    child: &mut [u16; 1024],
)
    requires { HeadAsks rows.first.now rows.last.now rows.n k prev parent.old left.old child.old }
    ensures { LinkedOf rows.entry.first.now rows.entry.last.now rows.entry.n parent.new left.new child.new (k + 1) }
{
    let w = climb(rows, parent, rows.last[k], prev);
    let up = w.parent;
    parent[k] = up as u16;
    left[k] = w.left as u16;
    if up == 0 {
        return;
    }
    child[up - 1] = (k + 1) as u16;
}

// The links of every head and of the chains, in one sweep over columns of 0. A position that is no head has the first day of the
// one above it, and so is the next in that one's chain.
fn link(
    rows: Rows,
    parent: &mut [u16; 1024],
    left: &mut [u16; 1024],
    child: &mut [u16; 1024],
    next: &mut [u16; 1024],
)
    requires columns_of { ColumnsOf rows.first.now rows.last.now rows.n }
    requires linked_of { LinkedOf rows.first.now rows.last.now rows.n parent.old left.old child.old 0 }
    requires chained_of { ChainedOf rows.first.now rows.last.now rows.n next.old 0 }
    ensures linked_of_2 { LinkedOf rows.entry.first.now rows.entry.last.now rows.entry.n parent.new left.new child.new rows.entry.n }
    ensures chained_of_2 { ChainedOf rows.entry.first.now rows.entry.last.now rows.entry.n next.new rows.entry.n }
{
    let mut prev = 0;
    for k in 0..rows.n {
        let mark = k + 1;
        if is_head(rows, k) {
            link_head(rows, k, prev, parent, left, child);
            prev = mark;
        } else {
            next[mark] = mark as u16;
        }
    }
}

// ---- the tables by day

// How many rows begin by day d, of which the first m do: the mark of the greatest head that does.
fn advance(rows: Rows, d: usize, m: usize) -> usize
    requires { AdvanceAsks rows.first.now rows.last.now rows.n d m }
    ensures value { result ≡ latest_in rows.entry.first.now rows.entry.last.now rows.entry.n d }
    ensures upper_bound { result ≤ rows.entry.n }
{
    let mut count = m;
    while count < rows.n && usize::from(rows.first[count]) <= d {
        count += 1;
    }
    count
}

// The start of day d + 1: the head that begins on it, where one does, or the nearest that lasts to it from the start of day d.
fn start_after(rows: Rows, parent: &[u16; 1024], d: usize, m: usize, e: usize, s: usize) -> usize
    requires { DayAsks rows.first.now rows.last.now rows.n parent.now d m e s }
    ensures value { result ≡ start_in rows.entry.first.now rows.entry.last.now rows.entry.n (d + 1) }
    ensures upper_bound { result ≤ rows.entry.n }
{
    if m != e {
        return e;
    }
    climb(rows, parent, (d + 1) as u16, s).parent
}

// The start and the latest of every day, day after day, over tables of 0. No spell begins on day 0.
fn day_tables(rows: Rows, parent: &[u16; 1024], start: &mut [u16; 4001], begun: &mut [u16; 4001])
    requires days_asks { DaysAsks rows.first.now rows.last.now rows.n parent.now }
    requires dayed_of { DayedOf rows.first.now rows.last.now rows.n start.old begun.old 0 }
    ensures { DayedOf rows.entry.first.now rows.entry.last.now rows.entry.n start.new begun.new day_count }
{
    let mut m = 0;
    let mut s = 0;
    for d in 0..4000 {
        let e = advance(rows, d + 1, m);
        s = start_after(rows, parent, d, m, e, s);
        m = e;
        start[d + 1] = s as u16;
        begun[d + 1] = m as u16;
    }
}

// ---- the columns, laid one after another

// The words of `values`, from `base` on.
fn lay(index: &mut [u16], base: usize, values: &[u16])
    requires { base + length values.now ≤ length index.old }
    ensures { Extends index.old base (base + length values.now) values.now index.new }
{
    index[base..base + values.len()].copy_from_slice(values);
}

// A column of the rows, 0 past them.
fn lay_rows(index: &mut [u16], base: usize, values: &[u16; 1024], n: usize)
    requires { base + 1024 ≤ length index.old }
    ensures { Extends index.old base (base + 1024) (column capacity (day_at (take n values.now))) index.new }
{
    for k in 0..1024 {
        index[base + k] = if k < n { values[k] } else { 0 };
    }
}

// The last day of the row with the mark m; 0 where it names none.
fn last_of(last: &[u16], m: u16) -> u16
    ensures { result ≡ last_of last.now m }
{
    let Some(p) = usize::from(m).checked_sub(1) else {
        return 0;
    };
    last.get(p).copied().unwrap_or(0)
}

// A column of marks, and beside it the last days of the rows that they name.
fn lay_marks(index: &mut [u16], base: usize, marks: &[u16; 1024], last: &[u16; 1024])
    requires { base + 2048 ≤ length index.old }
    ensures { Extends index.old base (base + 2048) (mark_words last.now marks.now) index.new }
{
    lay(index, base, marks);
    for (k, mark) in marks.iter().enumerate() {
        index[base + 1024 + k] = last_of(last, *mark);
    }
}

// Both tables by day.
fn lay_days(index: &mut [u16], rows: Rows, parent: &[u16; 1024])
    requires days_asks { DaysAsks rows.first.now rows.last.now rows.n parent.now }
    requires index_len { length index.old ≡ index_length }
    ensures { let n = rows.entry.n in Extends index.old start_table bucket_table (day_words (take n rows.entry.first.now) (take n rows.entry.last.now)) index.new }
{
    let mut start = [0u16; 4001];
    let mut begun = [0u16; 4001];
    day_tables(rows, parent, &mut start, &mut begun);
    lay(index, START, &start);
    lay(index, BEGUN, &begun);
}

// The links and the tables by day.
fn lay_tree(index: &mut [u16], rows: Rows)
    requires rows_of { RowsOf rows.first.now rows.last.now rows.n }
    requires index_len { length index.old ≡ index_length }
    ensures { let fs = take rows.entry.n rows.entry.first.now in let ls = take rows.entry.n rows.entry.last.now in Extends index.old parent_column bucket_table (link_words fs ls ++ day_words fs ls) index.new }
{
    let mut parent = [0u16; 1024];
    let mut left = [0u16; 1024];
    let mut child = [0u16; 1024];
    let mut next = [0u16; 1024];
    link(rows, &mut parent, &mut left, &mut child, &mut next);
    lay(index, PARENT, &parent);
    lay_marks(index, LEFT, &left, rows.last);
    lay_marks(index, CHILD, &child, rows.last);
    lay_marks(index, NEXT, &next, rows.last);
    lay_days(index, rows, &parent);
}

// ---- the buckets of the spell numbers

// Every row into the bucket of its number, in the order, over columns of 0: it leads to the row that was the latest there, and the bucket to it.
fn name_rows(number: &[u16; 1024], n: usize, bucket: &mut [u16; 2039], lower: &mut [u16; 1024])
    requires n_bound { n ≤ 1024 }
    requires named { Named (take n number.now) bucket.old lower.old n 0 }
    ensures { Named (take n number.now) bucket.new lower.new n n }
{
    for k in 0..n {
        let b = usize::from(number[k]) % BUCKETS;
        lower[k] = bucket[b];
        bucket[b] = (k + 1) as u16;
    }
}

// The buckets and the column of the rows before.
fn lay_names(index: &mut [u16], number: &[u16; 1024], n: usize)
    requires n_bound { n ≤ 1024 }
    requires index_len { length index.old ≡ index_length }
    ensures { Extends index.old bucket_table row_count (name_words (take n number.now) n) index.new }
{
    let mut bucket = [0u16; 2039];
    let mut lower = [0u16; 1024];
    name_rows(number, n, &mut bucket, &mut lower);
    lay(index, BUCKET, &bucket);
    lay(index, LOWER, &lower);
}

// ---- the whole index

// The block of rows that can be published.
fn fill(index: &mut [u16], number: &[u16; 1024], rows: Rows)
    requires rows_of { RowsOf rows.first.now rows.last.now rows.n }
    requires index_len { length index.old ≡ index_length }
    ensures { let n = rows.entry.n in index.new ≡ block_of (take n number.now) (take n rows.entry.first.now) (take n rows.entry.last.now) }
{
    lay_rows(index, NUMBER, number, rows.n);
    lay_rows(index, FIRST, rows.first, rows.n);
    lay_rows(index, LAST, rows.last, rows.n);
    lay_tree(index, rows);
    lay_names(index, number, rows.n);
    index[ROWS] = rows.n as u16;
}

// The index of the first n rows, where these are right and in the order; else the block is as before.
pub fn build(
    number: &[u16; 1024],
    first: &[u16; 1024],
    last: &[u16; 1024],
    n: usize,
    index: &mut [u16; INDEX],
) -> bool
    ensures { Builds number.now first.now last.now n index.old result index.new }
{
    if 1024 < n || !in_order(first, last, n) {
        return false;
    }
    fill(index, number, Rows { first, last, n });
    true
}
