// The lines that the program `repair` says, each put into the first places of a buffer.
#![tactic(auto)]

ghost use Rattle.std.specs.Prelude.{◌≤◌, length};
ghost use Rattle.repair_text.specs.Lines.{repaired_line, word_and_two, said_line, Says};

use repair_text::Said;

const TAB: u8 = b'\t';

const LF: u8 = b'\n';

// The places of a buffer: a word of at most nine bytes, then three numbers.
pub const LINE: usize = 72;

// The places for three numbers, each of at most twenty digits with the byte that ends it.
const NUMBERS: usize = 63;

// A word and two numbers: how many bytes they are.
fn put_two(out: &mut [u8; LINE], word: &[u8], a: u64, b: u64) -> usize
    requires { length word.now ≤ 9 }
    ensures { Says (word_and_two word.now a b) out.old result out.new }
{
    let mut numbers = [0u8; NUMBERS];
    let i = decimals::put_wide(&mut numbers, NUMBERS, b, LF);
    let j = decimals::put_wide(&mut numbers, i, a, TAB);
    let n = gathering::append(out, 0, word, 0);
    gathering::append(out, n, &numbers, j)
}

// A repaired text: its length, and how many lines were dropped and displaced.
fn put_repaired(out: &mut [u8; LINE], length: u64, dropped: u64, displaced: u64) -> usize
    ensures { Says (repaired_line length dropped displaced) out.old result out.new }
{
    let mut numbers = [0u8; NUMBERS];
    let i = decimals::put_wide(&mut numbers, NUMBERS, displaced, LF);
    let j = decimals::put_wide(&mut numbers, i, dropped, TAB);
    let k = decimals::put_wide(&mut numbers, j, length, TAB);
    let n = gathering::append(out, 0, b"repaired\t", 0);
    gathering::append(out, n, &numbers, k)
}

// The line of what is said: how many bytes it has.
pub fn put(out: &mut [u8; LINE], said: Said) -> usize
    ensures { Says (said_line said) out.old result out.new }
{
    match said {
        Said::Dropped(line, number) => put_two(
            out,
            b"dropped\t",
            u64::from(line),
            u64::from(number),
        ),
        Said::Refused(number, line) => put_two(out, b"refused\t", number, line),
        Said::Repaired(length, dropped, displaced) => put_repaired(out, length, dropped, displaced),
    }
}
