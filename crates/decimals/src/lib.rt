// The decimals of a text, each ended by a byte: reading them at a place of a text, and writing them before a place of a list.
#![tactic(auto)]

ghost use Rattle.std.specs.Prelude.{◌≡◌, suc, ◌+◌, ◌*◌, ◌^◌, ◌<◌, ◌≤◌, length, drop};
ghost use Rattle.fields.specs.Fields.{read_digits, read_length, read_number, number_text, wide_text, end_before, numbers_text};
ghost use Rattle.fields.specs.Answers.{answer_in, Reads, Puts};
ghost use Rattle.decimals.specs.Clauses.{digits_text};

// The digits from `start` on. A number above the limit ends the reading before it can wrap.
fn read_digits(text: &[u8], start: usize, limit: u64) -> Option<(u64, usize)>
    ensures { answer_in text.now result ≡ read_digits limit 0 (drop start text.now) }
{
    let mut v: u64 = 0;
    for i in start..text.len() {
        let b = text[i];
        if !b.is_ascii_digit() {
            return Some((v, i));
        }
        let tens = v.checked_mul(10)?;
        v = tens.checked_add(u64::from(b - b'0'))?;
        if v > limit {
            return None;
        }
    }
    Some((v, text.len()))
}

// A decimal up to a limit at `at` and the byte that ends it.
pub fn read_length(text: &[u8], at: usize, end: u8, limit: u64) -> Option<(u64, usize)>
    ensures { Reads text.now result (read_length limit end (drop at text.now)) }
{
    let b = *text.get(at)?;
    if b == b'0' {
        return field_bytes::read_end(text, Some((0, at + 1)), end);
    }
    if !b.is_ascii_digit() {
        return None;
    }
    let value = read_digits(text, at, limit);
    field_bytes::read_end(text, value, end)
}

// A number at `at` and the byte that ends it.
pub fn read_number(text: &[u8], at: usize, end: u8) -> Option<(u16, usize)>
    ensures { Reads text.now result (read_number end (drop at text.now)) }
{
    let (v, i) = read_length(text, at, end, u64::from(u16::MAX))?;
    Some((v as u16, i))
}

// The decimal of n, which has at most so many digits after its first, and the byte that ends it, before the place `at`: the place where it
// begins. Two places more than those digits are asked for before `at`, and nothing is written where they are not there.
fn put_decimal(buf: &mut [u8], at: usize, n: u64, end: u8, after: usize) -> usize
    requires { (after ≤ 19) × (n < 10 ^ suc after) }
    ensures { Puts (after + 2) (digits_text after n end) buf.old at result buf.new }
{
    if at < after + 2 {
        return at;
    }
    if buf.len() < at {
        return at;
    }
    let mut i = at - 1;
    buf[i] = end;
    let mut v = n;
    while v >= 10 {
        i -= 1;
        buf[i] = b'0' + (v % 10) as u8;
        v /= 10;
    }
    i -= 1;
    buf[i] = b'0' + v as u8;
    i
}

// The same of a number of 16 bits, for which six places are asked for.
pub fn put_number(buf: &mut [u8], at: usize, n: u16, end: u8) -> usize
    ensures { Puts 6 (number_text n end) buf.old at result buf.new }
{
    put_decimal(buf, at, u64::from(n), end, 4)
}

// The same of a number of up to 64 bits, for which 21 places are asked for.
pub fn put_wide(buf: &mut [u8], at: usize, n: u64, end: u8) -> usize
    ensures { Puts 21 (wide_text n end) buf.old at result buf.new }
{
    put_decimal(buf, at, n, end, 19)
}

// The byte after a decimal that so many others follow: a tab, or LF after the last.
pub fn end_before(others: usize) -> u8
    ensures { result ≡ end_before others }
{
    if others == 0 { b'\n' } else { b'\t' }
}

// The decimals of the numbers, parted by tabs and ended by LF, before the place `at`: the place where they begin. Six places
// before `at` are asked for each number, and nothing is written where they are not there.
pub fn put_numbers(buf: &mut [u8], at: usize, numbers: &[u16]) -> usize
    ensures { Puts (6 * length numbers.now) (numbers_text numbers.now) buf.old at result buf.new }
{
    if at / 6 < numbers.len() {
        return at;
    }
    if buf.len() < at {
        return at;
    }
    let mut place = at;
    for (others, n) in numbers.iter().rev().enumerate() {
        place = put_number(buf, place, *n, end_before(others));
    }
    place
}
