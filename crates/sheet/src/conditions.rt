// The refusals 1, 4, 5 and 7 of a list: they read it, and touch nothing.
ghost use Rattle.std.specs.Prelude.{◌≡◌, ◌+◌, ◌*◌, ◌≤◌, ◌<◌, length};
ghost use Rattle.definition.specs.Sheet.{refused};
ghost use Rattle.refusals.specs.Numbers.{number_or_0};
ghost use Rattle.refusals.specs.Refusals.{number_of};
ghost use Rattle.sheet.specs.Promise.{listed};
ghost use Rattle.sheet.specs.Refusals.{unknown_in, Unknown};

use refusals::{Refusal, far_point, standard};
use words::wide;

// Quads that a call may state.
pub const MOST_QUADS: usize = 16384;

// Points that a call may state.
pub const MOST_POINTS: usize = 8192;

// A corner of quad i is none of the points.
fn unknown_in(quads: &[u32], given: usize, i: usize) -> bool
    requires { 8 * i + 7 < length quads.now }
    ensures { result ≡ unknown_in given quads.now i }
{
    if wide(quads[8 * i]) >= given {
        return true;
    }
    if wide(quads[8 * i + 1]) >= given {
        return true;
    }
    if wide(quads[8 * i + 2]) >= given {
        return true;
    }
    wide(quads[8 * i + 3]) >= given
}

// 5: a corner of a quad is none of the points.
// Kept (6): the C interface lends slices that may be longer than `count` quads.
fn unknown_corner(quads: &[u32], given: usize, count: usize) -> bool
    requires { 8 * count ≤ length quads.now }
    ensures { Unknown given count quads.now result }
{
    for i in 0..count {
        if unknown_in(quads, given, i) {
            return true;
        }
    }
    false
}

// The first refusal whose condition holds.
pub fn check(
    points: &[f64],
    quads: &[u32],
    out: &[f64],
    given: usize,
    count: usize,
) -> Result<(), Refusal>
    ensures { number_or_0 result ≡ number_of (refused (listed given count points.now quads.now out.now)) }
{
    if count > MOST_QUADS {
        return Err(Refusal::OverLimit);
    }
    if given > MOST_POINTS {
        return Err(Refusal::OverLimit);
    }
    if points.len() < 3 * given {
        return Err(Refusal::TooShort);
    }
    if quads.len() < 8 * count {
        return Err(Refusal::TooShort);
    }
    if out.len() < 2 * count {
        return Err(Refusal::TooShort);
    }
    if unknown_corner(quads, given, count) {
        return Err(Refusal::UnknownNode);
    }
    let a = standard(given, given, 0, 0, 0.0, 0);
    if far_point(points, a) {
        return Err(Refusal::FarPoint);
    }
    Ok(())
}
