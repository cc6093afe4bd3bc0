// A reading, a 32-bit float, and its bits.
#![tactic(auto)]

ghost use Rattle.std.specs.Prelude.{◌≡◌};
ghost use Rattle.std.specs.Float.{binary32};
ghost use Rattle.std.specs.Float.Ieee.{to_bits, of_bits};

// The bits of a reading. A NaN has no bits of its own here: it gives those of the quiet NaN.
pub fn bits_of(x: f32) -> u32
    ensures { result ≡ to_bits binary32 x }
{
    if x != x {
        return 0x7FC0_0000;
    }
    f32::to_bits(x)
}

// The reading of any bits. Those of a NaN give a NaN.
pub fn reading_of(n: u32) -> f32
    ensures { result ≡ of_bits binary32 n }
{
    if 0x7F80_0000 < n % 0x8000_0000 {
        return 0.0 / 0.0;
    }
    f32::from_bits(n)
}
