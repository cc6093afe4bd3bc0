// What the program `stand` prints, put into lent lists: each line into the last places of a buffer, and the whole text in parts of many lines.
#![tactic(auto)]

ghost use Rattle.published_index.specs.Index.{Published};
ghost use Rattle.stand_text.specs.Report.{DayEnds, PartStands};

use stabbing::INDEX;
use stand_text::{LAST_DAY, LINE, PART, Part};

// The bytes of a part that has room for one line more.
const ROOMY: usize = PART - LINE;

// Day d's line over the published list: the place where it begins, which is the end where nobody stands.
pub fn day_line(index: &[u16; INDEX], d: u16, buf: &mut [u8; LINE]) -> usize
    requires { Published index.now }
    ensures { DayEnds index.now d buf.old result buf.new }
{
    let mut numbers = [0u16; 1024];
    let o = questions::day(index, d, &mut numbers);
    let k = o.count;
    let at_numbers = decimals::put_numbers(buf, LINE, &numbers[..k]);
    if k == 0 {
        return at_numbers;
    }
    let at_comparisons = decimals::put_number(buf, at_numbers, o.comparisons as u16, b'\t');
    let at_count = decimals::put_number(buf, at_comparisons, k as u16, b'\t');
    decimals::put_number(buf, at_count, d, b'\t')
}

// The next part of the text of all days: the lines from day `from` on, as long as there is room for one more.
pub fn days_part(index: &[u16; INDEX], from: u16, out: &mut [u8; PART]) -> Part
    requires { Published index.now }
    ensures { PartStands index.now from out.old result out.new }
{
    let mut buf = [0u8; LINE];
    let mut bytes = 0;
    let mut d = from;
    while d <= LAST_DAY && bytes <= ROOMY {
        let at = day_line(index, d, &mut buf);
        bytes = gathering::append(out, bytes, &buf, at);
        d += 1;
    }
    Part { bytes, next: d }
}
