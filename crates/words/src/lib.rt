// A word as an index, and a double with its bits.
#![tactic(auto)]

ghost use Rattle.std.specs.Prelude.{◌≡◌};
ghost use Rattle.std.specs.Float.{binary64};
ghost use Rattle.std.specs.Float.Ieee.{to_bits};
ghost use Rattle.definition.specs.Floats.{f64};

// The bits of plus infinity, and the sign's bit.
const INFINITY: u64 = 0x7ff0000000000000;

const SIGN: u64 = 0x8000000000000000;

// A word as an index.
// Kept (4): `x as usize` in its place is no plainer, for an `as` may cut digits off, and `wide` says that none go.
pub fn wide(x: u32) -> usize
    ensures { result ≡ x }
{
    x as usize
}

// A float's bits; a NaN has those of the logic's one pattern.
pub fn bits_of(x: f64) -> u64
    ensures { result ≡ to_bits binary64 x }
{
    if x != x {
        return 0x7ff8000000000000;
    }
    f64::to_bits(x)
}

// The float of a bit pattern; every pattern above infinity's, sign left out, is a NaN.
pub fn float_of(bits: u64) -> f64
    ensures { result ≡ f64 bits }
{
    if bits % SIGN > INFINITY {
        return 0.0 / 0.0;
    }
    f64::from_bits(bits)
}
