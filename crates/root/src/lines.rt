// A guess at a whole root; the caller tests it.
ghost use Rattle.std.specs.Prelude.{◌*◌, ◌^◌, ◌<◌};

use crate::ONE;
use std::num::{wrapping_add_u64, wrapping_sub_u64};

// The digits of a number from 1 to 4 below its leading one, under a 1 where it is 2 or more:
// 5 for its row, 20 for the part of the row, and 28 that a line leaves out.
const ROW: u64 = 1 << 48;

const PART: u64 = 1 << 28;

const PARTS: u64 = 1 << 20;

// A root near that of a number from 1 to 4, by 32 lines, one to a row:
// where it starts above 1, in 2^-16, and how far it rises in the row, in 2^-20.
const START: [u16; 32] = [
    4, 2020, 3978, 5883, 7738, 9547, 11314, 13041, 14731, 16386, 18008, 19599, 21161, 22696, 24204,
    25687, 27151, 30003, 32772, 35466, 38089, 40648, 43146, 45589, 47978, 50319, 52613, 54864,
    57073, 59243, 61376, 63474,
];

const RISE: [u16; 32] = [
    32260, 31345, 30490, 29688, 28956, 28280, 27638, 27043, 26482, 25957, 25467, 25007, 24567,
    24136, 23742, 23369, 45645, 44320, 43112, 41978, 40952, 39981, 39092, 38232, 37465, 36713,
    36017, 35339, 34723, 34131, 33567, 32992,
];

// 1 in the units of what a line gives, 2^-25; 2^-16 in these units;
// and how many parts of a row rise by such a unit where the row rises by 2^-20.
const UNITS: u64 = 1 << 25;

const COARSE: u64 = 1 << 9;

const RUN: u64 = 1 << 15;

// What a unit weighs in the bits of a double from 1 to 2, and in 2^-61.
const IN_BITS: u64 = 1 << 27;

const IN_STEPS: u64 = 1 << 36;

// The number added to a step, so that the last digit of the sum's bits is 2^-61; its bits;
// and how many of 2^-61 make one unit of the whole root.
const FINE: f64 = 0.0029296875;

const FINE_BITS: u64 = 0x3f68000000000000;

const STEPS: u64 = 256;

// A number of the table.
fn wide(v: u16) -> u64
    ensures { result < 2 ^ 16 }
{
    v as u64
}

// The line of row `i` at part `x` of the row, above 1.
fn line(i: usize, x: u64) -> u64
    requires { (i < 32) × (x < 2 ^ 20) }
    ensures { result < 2 ^ 25 }
{
    (wide(START[i]) * COARSE + wide(RISE[i]) * x / RUN) % UNITS
}

// A guess at the whole root of the number that `last` stands for, in units of 2^-53.
// A line gives 26 binary digits, so that their square is exact, and a step of the fourth order follows.
// For about three numbers in a thousand the guess is one more than the whole root, and for the others the whole root.
// The contract promises neither.
pub fn guess(last: u64) -> u64
    requires { last < 2 ^ 53 }
    ensures { result < 2 ^ 56 }
{
    let p = line((last / ROW) as usize, last / PART % PARTS);
    let v = f64::from_bits(last + ONE);
    let near = f64::from_bits(p * IN_BITS + ONE);
    let square = near * near;
    let fine = FINE + (v - square) * (3.0 * square + v) / (4.0 * near * (square + v));
    if fine > 0.0 {
        let whole = (p + UNITS) * IN_STEPS;
        return wrapping_add_u64(wrapping_sub_u64(whole, FINE_BITS), f64::to_bits(fine)) / STEPS;
    }
    0
}
