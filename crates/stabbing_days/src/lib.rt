// The question of several days over the published index. Each day is asked by itself, and what it adds to the days before it goes
// into an answer of the question's own, which goes to the caller's list once its count is known.
#![tactic(auto)]

ghost use Rattle.std.specs.Prelude.{◌≡◌, ◌<◌, ◌≤◌, length, get_or, drop};
ghost use Rattle.buffer.specs.Buffer.{overlaid};
ghost use Rattle.stabbing.specs.Index.{Built};
ghost use Rattle.calendar.specs.Calendar.{days_ok};
ghost use Rattle.stabbing.specs.Answer.{Gave, told_in, days_in, rising_from};
ghost use Rattle.stabbing_days.specs.Clauses.{Skips, day_from, asked, AddAsks, GatherAsks, Added, Gathered};

use calendar::is_day;
use refusal::Refusal;
use stabbing::{BEGUN, INDEX, Listed};
use stabbing_lookup::find;

// ---- The checks

// Whether every day is on the calendar.
fn on_calendar(days: &[u16]) -> bool
    ensures { result ≡ days_ok days.now }
{
    days.iter().all(|d| is_day(*d))
}

// Whether every day is above the one before, the first above 0.
fn in_order(days: &[u16]) -> bool
    ensures { result ≡ rising_from 0 days.now }
{
    let mut before = 0;
    for day in days {
        if *day <= before {
            return false;
        }
        before = *day;
    }
    true
}

// ---- The answer

// The place from which on the rows found, which are in the order, lie past the first m. The last is looked at first, since days that follow
// each other seldom add one; then the place is sought by halving. With m 0, as on the first day, all are new, and none is looked at.
fn skip(index: &[u16; INDEX], found: &[u16], m: usize) -> usize
    requires { Built index.now }
    ensures { Skips index.now found.now m result }
{
    if m == 0 {
        return 0;
    }
    let Some((last, earlier)) = found.split_last() else {
        return 0;
    };
    if find(index, *last) <= m {
        return found.len();
    }
    earlier.partition_point(|number| find(index, *number) <= m)
}

// Moves the finds from the place `from` on to the front, over those before them.
fn close(finds: &mut [u16], from: usize)
    requires { from ≤ length finds.old }
    ensures { finds.new ≡ overlaid (drop from finds.old) finds.old }
{
    finds.copy_within(from.., 0);
}

// What the first of the days still to come adds to the days before it, by the last of which m rows begin: of these m, the ones that
// contain it contain that day too. The day is asked into the part of the answer not yet written. Its finds are in the order, so that the
// ones that it doesn't add come first, and the gap that they make is closed. A row's number tells its place in the order, since no two rows
// have one number.
fn add(index: &[u16; INDEX], days: &[u16], m: usize, part: &mut [u16]) -> usize
    requires days_nonzero { 0 < length days.now }
    requires add_asks { AddAsks index.now (get_or days.now 0 0) part.old }
    ensures { Added (day_from index.now m (get_or days.now 0 0)) (asked index.now (get_or days.now 0 0) part.old) part.new result }
{
    let k = stabbing_query::day(index, days[0], part).unwrap().count;
    let from = skip(index, &part[..k], m);
    close(&mut part[..k], from);
    k - from
}

// What the days give, one after the other: each time the days still to come are handed on as the rest of their list, and the part of the
// answer not yet written is lent to the first of them.
fn gather(index: &[u16; INDEX], days: &[u16], answer: &mut [u16]) -> usize
    requires { GatherAsks index.now days.now 0 answer.old }
    ensures { Gathered index.now days.now answer.old answer.new result }
{
    let mut begun = 0;
    let mut at = 0;
    for i in 0..days.len() {
        at += add(index, &days[i..], begun, &mut answer[at..]);
        begun = usize::from(index[usize::from(days[i]) + BEGUN]);
    }
    at
}

// The days, strictly rising: the spells that contain at least one of them. No comparisons are reported. Of no days there are none, and no
// answer is laid out.
pub fn days(index: &[u16; INDEX], days: &[u16], out: &mut [u16]) -> Result<Listed, Refusal>
    requires { Built index.now }
    ensures { Gave (told_in result) out.new (days_in index.now days.now out.old) }
{
    if !on_calendar(days) {
        return Err(Refusal::OffCalendar);
    }
    if !in_order(days) {
        return Err(Refusal::UnsortedDays);
    }
    if days.is_empty() {
        return Ok(Listed {
            count: 0,
            comparisons: 0,
        });
    }
    let mut answer = [0u16; 2048];
    let n = gather(index, days, &mut answer);
    if out.len() < n {
        return Err(Refusal::ShortBuffer);
    }
    buffer::put(&answer[..n], out);
    Ok(Listed {
        count: n,
        comparisons: 0,
    })
}
