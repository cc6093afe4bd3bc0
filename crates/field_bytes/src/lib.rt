// Single bytes of a text: the byte at a place, the byte that ends a field, one that is written.
#![tactic(auto)]

ghost use Rattle.std.specs.Prelude.{◌≡◌};
ghost use Rattle.fields.specs.Fields.{onward, passed, is_at, byte_text};
ghost use Rattle.fields.specs.Answers.{answer_in, Reads, Puts};

// Whether the byte b stands at `at`.
pub fn is_at(text: &[u8], at: usize, b: u8) -> bool
    ensures { result ≡ is_at text.now at b }
{
    text.get(at).copied() == Some(b)
}

// What was read, and the byte that ends it.
pub fn read_end(text: &[u8], value: Option<(u64, usize)>, end: u8) -> Option<(u64, usize)>
    ensures { Reads text.now result (onward (answer_in text.now value) (passed end)) }
{
    let (v, i) = value?;
    if !is_at(text, i, end) {
        return None;
    }
    Some((v, i + 1))
}

// One byte before the place `at`: the place where it stands. Nothing is written where there is no such place.
pub fn put_byte(buf: &mut [u8], at: usize, b: u8) -> usize
    ensures { Puts 1 (byte_text b) buf.old at result buf.new }
{
    if at == 0 || buf.len() < at {
        return at;
    }
    let i = at - 1;
    buf[i] = b;
    i
}
