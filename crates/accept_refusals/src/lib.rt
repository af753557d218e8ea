// The refusals that open a call of the acceptance: they read what is handed in, and touch nothing.
#![tactic(auto)]

mod lent_cells;
mod nodes;

ghost use Rattle.std.specs.Prelude.{◌≡◌, not, ◌&&◌};
ghost use Rattle.definition.specs.Floats.{0·5, 0·99, 1·0};
ghost use Rattle.definition.specs.Call.{ranges};
ghost use Rattle.refusals.specs.Numbers.{number_or_0};
ghost use Rattle.refusals.specs.Refusals.{number_of};
ghost use Rattle.accept.specs.Call.{too_short, refused};
ghost use Rattle.accept_refusals.specs.Stated.{handed, over, Limited};

use crate::nodes::{bad_joints, far_point, repeated_node, unknown_node};
use refusals::{Refusal, ranges};

// The most that a list may have.
const MOST: usize = 1048576;

// The least of both limits, the most of that for quads, and the most of that for leftover triangles,
// which asks nothing.
const LEAST_COSINE: f64 = 0.5;

const MOST_COSINE: f64 = 0.99;

const MOST_THIN: f64 = 1.0;

// u32 of work for a side of a cell.
const SIDE_WORDS: usize = 4;

// u32 of parents for a leftover triangle.
const PARENT_WORDS: usize = 2;

// Kept (6): the numbers stand beside their slices, since C's callers lend longer slices, and `Handed` has both.
// The numbers that the caller states: given points and triangles, points, quads and leftover triangles, joints,
// the largest cosine of a quad's corner, and that of a leftover triangle's corner, where 1 asks nothing.
#[derive(Clone, Copy)]
pub struct Stated {
    pub given: usize,
    pub count: usize,
    pub points: usize,
    pub quads: usize,
    pub left: usize,
    pub joints: usize,
    pub cosine: f64,
    pub thin: f64,
}

// 1: a list is too long.
fn over_limit(a: Stated) -> bool
    ensures { result ≡ over a }
{
    if a.given > MOST {
        return true;
    }
    if a.count > MOST {
        return true;
    }
    if a.points > MOST {
        return true;
    }
    if a.quads > MOST {
        return true;
    }
    if a.left > MOST {
        return true;
    }
    if a.joints > MOST {
        return true;
    }
    false
}

// 14: a limit is out of its range.
fn bad_limit(cosine: f64, thin: f64) -> bool
    ensures { result ≡ not (ranges 0·5 0·99 cosine && ranges 0·5 1·0 thin) }
{
    if ranges(LEAST_COSINE, MOST_COSINE, cosine) {
        return !ranges(LEAST_COSINE, MOST_THIN, thin);
    }
    true
}

// 4: a slice is shorter than the stated numbers need.
fn too_short(
    given: &[f64],
    triangles: &[u32],
    points: &[f64],
    quads: &[u32],
    left: &[u32],
    joints: &[u32],
    components: &[u32],
    work: &[u32],
    parents: &[u32],
    a: Stated,
) -> bool
    requires { Limited a }
    ensures { result ≡ too_short (handed given.now triangles.now points.now quads.now left.now joints.now components.now work.now parents.now a) }
{
    if given.len() < 3 * a.given {
        return true;
    }
    if triangles.len() < 3 * a.count {
        return true;
    }
    if points.len() < 3 * a.points {
        return true;
    }
    if quads.len() < 4 * a.quads {
        return true;
    }
    if left.len() < 3 * a.left {
        return true;
    }
    if joints.len() < 2 * a.joints {
        return true;
    }
    if components.len() < a.left {
        return true;
    }
    if work.len() < SIDE_WORDS * (3 * a.count + 4 * a.quads + 3 * a.left) {
        return true;
    }
    if parents.len() < PARENT_WORDS * a.left {
        return true;
    }
    false
}

// The refusal of the first condition that holds, if one does.
pub fn refusal(
    given: &[f64],
    triangles: &[u32],
    points: &[f64],
    quads: &[u32],
    left: &[u32],
    joints: &[u32],
    components: &[u32],
    work: &[u32],
    parents: &[u32],
    a: Stated,
) -> Result<(), Refusal>
    ensures { number_or_0 result ≡ number_of (refused (handed given.now triangles.now points.now quads.now left.now joints.now components.now work.now parents.now a)) }
{
    if over_limit(a) {
        return Err(Refusal::OverLimit);
    }
    if bad_limit(a.cosine, a.thin) {
        return Err(Refusal::BadQuality);
    }
    if too_short(
        given, triangles, points, quads, left, joints, components, work, parents, a,
    ) {
        return Err(Refusal::TooShort);
    }
    if unknown_node(triangles, quads, left, a) {
        return Err(Refusal::UnknownNode);
    }
    if repeated_node(triangles, quads, left, a) {
        return Err(Refusal::RepeatedNode);
    }
    if far_point(given, points, a) {
        return Err(Refusal::FarPoint);
    }
    if bad_joints(joints, a.joints, a.given) {
        return Err(Refusal::BadJoint);
    }
    Ok(())
}
