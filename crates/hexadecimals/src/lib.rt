// The hex digits of a text, eight and the byte that ends them: reading them at a place of a text, and writing them before a
// place of a list.
#![tactic(auto)]

ghost use Rattle.std.specs.Prelude.{◌≡◌, ◌<◌, ◌≤◌, drop};
ghost use Rattle.fields.specs.Fields.{onward, passed, read_hex, read_bits, read_mask, hex_digit, bits_text};
ghost use Rattle.fields.specs.Answers.{Reads, Puts};
ghost use Rattle.hexadecimals.specs.Clauses.{value_of};

// The value of a digit 0-9 A-F.
#[tactic(auto, unfolding(fields::specs::Fields::hex_value))]
fn hex_value(b: u8) -> Option<u64>
    ensures { result ≡ value_of b }
{
    match b {
        b'0'..=b'9' => Some(u64::from(b - b'0')),
        b'A'..=b'F' => Some(u64::from(b - b'A') + 10),
        _ => None,
    }
}

// So many hex digits at `start`, highest first, and the byte that ends them: at most 16, which 64 bits hold.
fn read_hex(text: &[u8], start: usize, digits: usize, end: u8) -> Option<(u64, usize)>
    requires { digits ≤ 16 }
    ensures { Reads text.now result (onward (read_hex digits 0 (drop start text.now)) (passed end)) }
{
    let mut v: u64 = 0;
    let mut i = start;
    for _ in 0..digits {
        let b = *text.get(i)?;
        let d = hex_value(b)?;
        v = 16 * v + d;
        i += 1;
    }
    field_bytes::read_end(text, Some((v, i)), end)
}

// The eight hex digits of 32 bits at `at` and the byte that ends them.
pub fn read_bits(text: &[u8], at: usize, end: u8) -> Option<(u64, usize)>
    ensures { Reads text.now result (read_bits end (drop at text.now)) }
{
    read_hex(text, at, 8, end)
}

// The sixteen hex digits of a mask of 64 bits at `at` and the byte that ends them.
pub fn read_mask(text: &[u8], at: usize, end: u8) -> Option<(u64, usize)>
    ensures { Reads text.now result (read_mask end (drop at text.now)) }
{
    read_hex(text, at, 16, end)
}

#[tactic(auto, unfolding(fields::specs::Fields::hex_digit))]
fn hex_digit(d: u32) -> u8
    requires { d < 16 }
    ensures { result ≡ hex_digit d }
{
    if d < 10 {
        b'0' + d as u8
    } else {
        b'A' + (d - 10) as u8
    }
}

// The eight hex digits of n and the byte that ends them, before the place `at`: the place where they begin. Nine places
// before `at` are asked for, and nothing is written where they are not there.
pub fn put_bits(buf: &mut [u8], at: usize, n: u32, end: u8) -> usize
    ensures { Puts 9 (bits_text n end) buf.old at result buf.new }
{
    if at < 9 {
        return at;
    }
    if buf.len() < at {
        return at;
    }
    buf[at - 1] = end;
    let mut v = n;
    for i in (at - 9..at - 1).rev() {
        buf[i] = hex_digit(v % 16);
        v /= 16;
    }
    at - 9
}
