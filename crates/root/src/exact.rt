// The exact result of a square root: the number under the root in whole numbers,
// its whole root and what is left over.
// Nothing is rounded here.
ghost use Rattle.std.specs.Prelude.{◌≡◌, ◌*◌, ◌^◌, ◌<◌};
ghost use Rattle.rounding.specs.Parts.{Leading};
ghost use Rattle.root.specs.Exact.{WholeRoot, Doubled, Radicand};

use crate::halves::left_over;
use crate::lines::guess;
use crate::{LEAD, PAIR};

// A word of 64 digits divided by this is its two leading ones.
const TOP: u64 = 1 << 62;

// How far `m` is shifted up so that its leading digit stands at 2^52.
fn spare(m: u64) -> u64
    requires { (0 < m) × (m < 2 ^ 53) }
    ensures { Leading m result }
{
    u64::leading_zeros(m) as u64 - 11
}

// `m * 2^z`.
fn shifted(m: u64, z: u64) -> u64
    requires { Leading m z }
    ensures { result ≡ m * 2 ^ z }
{
    m << z
}

// A finite double above zero as `doubled(last)` times a power of four.
// `last` has the digits of its significand below the leading one, and on top of them a 1 for an odd exponent.
// `half` is the exponent of the root, as the root's bits have it.
#[derive(Clone, Copy)]
pub struct Digits {
    pub last: u64,
    pub half: u64,
}

// The finite double above zero with the bits `b`, scaled. A subnormal significand is normalised by its leading zeros.
pub fn scaled(b: u64) -> Digits
    requires { (0 < b) × (b < 2047 * 2 ^ 52) }
    ensures { Radicand b result.last result.half }
{
    if b >= LEAD {
        let up = b + LEAD;
        return Digits {
            last: up % PAIR,
            half: up / PAIR + 510,
        };
    }
    let z = spare(b);
    let g = 52 - z;
    Digits {
        last: shifted(b, z) % LEAD + g % 2 * LEAD,
        half: g / 2 + 485,
    }
}

// The number under the root: the significand, doubled for an odd exponent.
pub fn doubled(last: u64) -> u64
    requires { last < 2 ^ 53 }
    ensures { Doubled last result }
{
    if last < LEAD {
        return last + LEAD;
    }
    last * 2
}

// A whole root, and what is left over of the number when its square is taken away.
#[derive(Clone, Copy)]
pub struct Whole {
    pub root: u64,
    pub rest: u64,
}

// The whole root of `r * 2^54`: two binary digits of the number at a time from the top, one of the root.
fn by_digits(r: u64) -> Whole
    requires { r < 2 ^ 54 }
    ensures { WholeRoot (r * 2 ^ 54) result.root result.rest }
{
    let mut w = r << 10;
    let mut rest: u64 = 0;
    let mut root: u64 = 0;
    for _i in 0..54_usize {
        let next = rest * 4 + w / TOP;
        let trial = root * 4 + 1;
        w = w << 2;
        if next < trial {
            rest = next;
            root = root * 2;
        } else {
            rest = next - trial;
            root = root * 2 + 1;
        }
    }
    Whole {
        root: root,
        rest: rest,
    }
}

// The exact result: the whole root of `r * 2^54`, and what is left over; `last` has the digits of `r`.
// The result is the guess where its square leaves a valid rest, or the guess less one where that one's square does.
// Otherwise the root is found digit by digit.
pub fn whole_root(r: u64, last: u64) -> Whole
    requires { (r < 2 ^ 54) × (last < 2 ^ 53) }
    ensures { WholeRoot (r * 2 ^ 54) result.root result.rest }
{
    let t = guess(last);
    let d = left_over(r, t);
    if d <= 2 * t {
        return Whole { root: t, rest: d };
    }
    if t > 0 {
        let e = left_over(r, t - 1);
        if e <= 2 * (t - 1) {
            return Whole {
                root: t - 1,
                rest: e,
            };
        }
    }
    by_digits(r)
}
