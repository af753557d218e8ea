// A double in two words, the lower half of its bits first.
ghost use Rattle.std.specs.Prelude.{◌≡◌, true, false, not, ◌+◌, ◌^◌, ◌<◌, ◌≤◌, T, length};
ghost use Rattle.std.specs.Float.{binary64};
ghost use Rattle.std.specs.Float.Ieee.{to_bits, is_nan, nan_bits};
ghost use Rattle.definition.specs.Floats.{f64};
ghost use Rattle.edge_candidates.specs.Words.{float_at, PutTo};

use words::bits_of;

// As many numbers as a word has.
const WORD: u64 = 4294967296;

// A word as a long one.
fn long(x: u32) -> u64
    ensures { (result ≡ x) × (result < 2 ^ 32) }
{
    x as u64
}

// The float of a bit pattern that is not a NaN's.
fn float_of(bits: u64) -> f64
    requires { T (not (nan_bits binary64 bits)) }
    ensures { result ≡ f64 bits }
{
    f64::from_bits(bits)
}

// x is not a NaN.
pub fn is_number(x: f64) -> bool
    ensures { result ≡ true → is_nan x ≡ false }
{
    !x.is_nan()
}

// The float x comes to `at`.
pub fn put(w: &mut [u32], at: usize, x: f64)
    requires { at + 2 ≤ length w.old }
    ensures { PutTo w.old w.new at x }
{
    let b = bits_of(x);
    w[at] = (b % WORD) as u32;
    w[at + 1] = (b / WORD) as u32;
}

// The float that stands at `at`, which is not a NaN.
pub fn get(w: &[u32], at: usize) -> f64
    requires at_in_bounds { at + 2 ≤ length w.now }
    requires at_value { is_nan (float_at w.now at) ≡ false }
    ensures { result ≡ float_at w.now at }
{
    float_of(long(w[at]) + long(w[at + 1]) * WORD)
}
