// The conditions that read the lists.
ghost use Rattle.std.specs.Prelude.{◌≡◌, ◌*◌, ◌≤◌, length};
ghost use Rattle.definition.specs.Cells.{key};
ghost use Rattle.definition.specs.Call.{bad_joint};
ghost use Rattle.accept_refusals.specs.Stated.{unknown, repeated, far, joints_bad, LongCells, LongPoints};

use crate::Stated;
use crate::lent_cells::{far_in, repeated_corner, repeated_in, unknown_corner, unknown_in};
use refusals::bad_joint;

// 5: a node of a cell is none of its points.
pub fn unknown_node(triangles: &[u32], quads: &[u32], left: &[u32], a: Stated) -> bool
    requires { LongCells triangles.now quads.now left.now a }
    ensures { result ≡ unknown triangles.now quads.now left.now a }
{
    if unknown_in(triangles, a.count, a.given) {
        return true;
    }
    if unknown_corner(quads, a.quads, a.points) {
        return true;
    }
    unknown_in(left, a.left, a.points)
}

// 6: a triangle or a quad has a node twice.
pub fn repeated_node(triangles: &[u32], quads: &[u32], left: &[u32], a: Stated) -> bool
    requires { LongCells triangles.now quads.now left.now a }
    ensures { result ≡ repeated triangles.now quads.now left.now a }
{
    if repeated_in(triangles, a.count) {
        return true;
    }
    if repeated_corner(quads, a.quads) {
        return true;
    }
    repeated_in(left, a.left)
}

// 7: an x or y is not finite or is beyond 8.
pub fn far_point(given: &[f64], points: &[f64], a: Stated) -> bool
    requires { LongPoints given.now points.now a }
    ensures { result ≡ far given.now points.now a }
{
    if far_in(given, a.given) {
        return true;
    }
    far_in(points, a.points)
}

// Kept (6): C's callers lend longer slices, and the clause's `joints_bad` has the number beside the list.
// 13: one of the n joints names a node twice or a node that is not given.
pub fn bad_joints(joints: &[u32], n: usize, given: usize) -> bool
    requires { 2 * n ≤ length joints.now }
    ensures { result ≡ joints_bad joints.now n given }
{
    for i in 0..n {
        if bad_joint(joints[2 * i], joints[2 * i + 1], given) {
            return true;
        }
    }
    false
}
