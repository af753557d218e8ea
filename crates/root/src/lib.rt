// The square root of a double, rounded to nearest, and its floor, both worked out from the bits.
// The root in the order of IEEE 754: the special operands (`sqrt`),
// the exact result (`exact`), the rounding (`rounded`).
#![tactic(auto)]

ghost use Rattle.std.specs.Prelude.{◌≡◌, ◌+◌, ◌-◌, ◌*◌, ◌/◌, ◌^◌, ◌<◌, ◌≤◌, from_bits, to_bits};
ghost use Rattle.std.specs.Float.{binary64};
ghost use Rattle.definition.specs.Root.{sqrt, floor};
ghost use Rattle.rounding.specs.Parts.{Significand};
ghost use Rattle.root.specs.Rounded.{Halved};
ghost use Rattle.root.specs.Nan.{NanPattern};

mod exact;
mod halves;
mod lines;

use crate::exact::{Whole, doubled, scaled, whole_root};

// 2^52: the weight of the exponent in the bits, and of the leading digit in a significand.
const LEAD: u64 = 1 << 52;

// The bits of 1, of 2^52 and of plus infinity, and the sign's bit.
const ONE: u64 = 1023 * LEAD;

const WHOLE: u64 = 1075 * LEAD;

const INFINITY: u64 = 2047 * LEAD;

const SIGN: u64 = 2048 * LEAD;

// Twice 2^52: the weight of the exponent in the bits without its last digit.
const PAIR: u64 = 2 * LEAD;

// The double nearest to the root of `x`.
// The special operands come first, one step each: a NaN and a number below zero have no root,
// and a zero of either sign and plus infinity are their own.
pub fn sqrt(x: f64) -> f64
    ensures is { result ≡ sqrt x }
    ensures pattern { NanPattern x result }
{
    if x != x {
        return 0.0 / 0.0;
    }
    if x < 0.0 {
        return 0.0 / 0.0;
    }
    if x == 0.0 {
        return x;
    }
    let b = f64::to_bits(x);
    if b >= INFINITY {
        return x;
    }
    f64::from_bits(root_bits(b))
}

// The bits of the root of the finite double above zero with the bits `b`: the exact result, then the rounding.
fn root_bits(b: u64) -> u64
    requires { (0 < b) × (b < 2047 * 2 ^ 52) }
    ensures { (result < 2047 * 2 ^ 52) × (result ≡ to_bits binary64 (sqrt (from_bits binary64 b))) }
{
    let s = scaled(b);
    let w = whole_root(doubled(s.last), s.last);
    s.half * LEAD + rounded(w)
}

// The rounding to nearest, ties to even: the whole root has one digit more than a double keeps.
// Where that digit is 1, the root goes upward if something is left over, and to the even neighbour if nothing is.
fn rounded(w: Whole) -> u64
    ensures { Halved w.root w.rest result }
{
    let kept = w.root / 2;
    if w.rest > 0 {
        return kept + w.root % 2;
    }
    if w.root % 2 == 0 {
        return kept;
    }
    kept + kept % 2
}

// The significand of the finite double with the bits `b`, sign left out, as a whole number below 2^53.
fn significand(b: u64) -> u64
    ensures { Significand b result }
{
    if b < LEAD {
        return b;
    }
    b % LEAD + LEAD
}

// The exponent of the finite double with the bits `b`: the double is `significand(b) * 2^exponent(b)` times 2^-1074.
fn exponent(b: u64) -> u64
    ensures { result ≡ b / 2 ^ 52 - 1 }
{
    if b < LEAD {
        return 0;
    }
    b / LEAD - 1
}

// `m` with its `k` last digits cleared.
fn cleared(m: u64, k: u64) -> u64
    requires { (k ≤ 52) × (m < 2 ^ 53) }
    ensures { (result ≡ m / 2 ^ k * 2 ^ k) × (result ≤ m) }
{
    (m >> k) << k
}

// `2^k`.
fn power(k: u64) -> u64
    requires { k ≤ 52 }
    ensures { (result ≡ 2 ^ k) × (result ≤ 2 ^ 52) }
{
    1 << k
}

// The floor of the double with the bits `a`, which is below 2^52 and not negative, by its bits.
fn cut_down(a: u64) -> u64
    requires { a < 1075 * 2 ^ 52 }
    ensures { (result < 2047 * 2 ^ 52) × (from_bits binary64 result ≡ floor (from_bits binary64 a)) }
{
    if a < ONE {
        return 0;
    }
    let e = exponent(a);
    e * LEAD + cleared(significand(a), 1074 - e)
}

// The floor of the double with the bits `2^63 + a`, which is not positive, without its sign: rounded away from zero.
fn cut_up(a: u64) -> u64
    requires { a < 1075 * 2 ^ 52 }
    ensures { (result < 2047 * 2 ^ 52) × (from_bits binary64 (2 ^ 63 + result) ≡ floor (from_bits binary64 (2 ^ 63 + a))) }
{
    if a == 0 {
        return 0;
    }
    if a < ONE {
        return ONE;
    }
    let e = exponent(a);
    let m = significand(a);
    let c = cleared(m, 1074 - e);
    if c == m {
        return a;
    }
    e * LEAD + c + power(1074 - e)
}

// The greatest whole number that is at most `x`. A NaN stays a NaN, and what is 2^52 or more in size is whole already.
pub fn floor(x: f64) -> f64
    ensures { result ≡ floor x }
{
    if x != x {
        return x;
    }
    let b = f64::to_bits(x);
    let a = b % SIGN;
    if a >= WHOLE {
        return x;
    }
    if b < SIGN {
        return f64::from_bits(cut_down(a));
    }
    f64::from_bits(SIGN + cut_up(a))
}
