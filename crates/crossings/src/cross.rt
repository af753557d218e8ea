// The smallest edge that crosses a segment.
ghost use Rattle.std.specs.Prelude.{◌≡◌, true, ◌≤◌, ◌<◌};
ghost use Rattle.definition.specs.Floats.{◌⊗◌, ◌≺◌, 0·0};
ghost use Rattle.definition.specs.Plane.{side, parts};
ghost use Rattle.definition.specs.Cells.{Mesh, node_at};
ghost use Rattle.definition.specs.Flips.{off_edge, overlaps, is_crossing};
ghost use Rattle.plane.specs.Points.{Within};
ghost use Rattle.crossings.specs.Nodes.{Four};
ghost use Rattle.definition.specs.Call.{point_at};
ghost use Rattle.laws.specs.Frames.{Keeps};
ghost use Rattle.cells.specs.Layout.{mesh_end};
ghost use Rattle.crossings.specs.Limits.{IsLimits};
ghost use Rattle.crossings.specs.Cross.{Known, Drawn, CanTry, Segment, Choice, LeastAt, NoneBelow};
ghost use Rattle.crossings.specs.Crossings.{IsFirst};

use crate::boxes::passed_over;
use crate::buckets::{Limits, axis_meets, limits_of};
use cells::find::{node_after, node_before};
use cells::layout::{BEFORE, CORNERS, Layout};
use plane::points::at;
use plane::sides::side;
use rings::next;

// ---- one edge

// The node n is no end of the edge u-v.
pub fn off_edge(n: usize, u: usize, v: usize) -> bool
    ensures { result ≡ off_edge (u, v) n }
{
    if n == u {
        return false;
    }
    n != v
}

// The segments u-v and a-b overlap in bucket range on both axes.
fn overlaps(q: &[f64], bucket: f64, u: usize, v: usize, a: usize, b: usize) -> bool
    requires { Within q.now u × Within q.now v × Within q.now a × Within q.now b }
    ensures { (m : Mesh) → m.bucket ≡ bucket → Four q.now m u v a b → result ≡ overlaps m (node_at m u) (node_at m v) (node_at m a) (node_at m b) }
{
    let su = at(q, u);
    let sv = at(q, v);
    let sa = at(q, a);
    let sb = at(q, b);
    if axis_meets(bucket, su.x, sv.x, sa.x, sb.x) {
        return axis_meets(bucket, su.y, sv.y, sa.y, sb.y);
    }
    false
}

// The line from u to v separates the node b from one whose side of that line is d.
fn other_side(q: &[f64], u: usize, v: usize, d: f64, b: usize) -> bool
    requires { Within q.now u × Within q.now v × Within q.now b }
    ensures { let p = point_at q.now in result ≡ (d ⊗ side (p u) (p v) (p b) ≺ 0·0) }
{
    d * side(q, u, v, b) < 0.0
}

// The edge a-b, whose ends the line from u to v separates, shares no node with the segment u-v, crosses it,
// and overlaps it in bucket range on both axes.
fn is_crossing(q: &[f64], bucket: f64, u: usize, v: usize, a: usize, b: usize) -> bool
    requires within { Within q.now u × Within q.now v × Within q.now a × Within q.now b }
    requires b_value { let p = point_at q.now in parts (p u) (p v) (p a) (p b) ≡ true }
    ensures { (m : Mesh) → m.bucket ≡ bucket → Four q.now m u v a b → result ≡ is_crossing m u v (a, b) }
{
    if !off_edge(a, u, v) {
        return false;
    }
    if !off_edge(b, u, v) {
        return false;
    }
    if !other_side(q, a, b, side(q, a, b, u), v) {
        return false;
    }
    overlaps(q, bucket, u, v, a, b)
}

// x where it is above a and below best and the edge a-x crosses u-v, else best; d is the side of a.
fn better_of(
    q: &[f64],
    n: usize,
    bucket: f64,
    u: usize,
    v: usize,
    a: usize,
    d: f64,
    x: usize,
    best: usize,
) -> usize
    requires can_try { CanTry q.now n u v a }
    requires best_le_n { best ≤ n }
    requires d_value { let p = point_at q.now in d ≡ side (p u) (p v) (p a) }
    ensures bound { result ≤ best }
    ensures is { (m : Mesh) → Drawn q.now n bucket m → Choice m u v a x best result }
{
    if x <= a {
        return best;
    }
    if x >= best {
        return best;
    }
    if !other_side(q, u, v, d, x) {
        return best;
    }
    if is_crossing(q, bucket, u, v, a, x) {
        return x;
    }
    best
}

// ---- the mesh

// The least b above a such that the mesh has the edge a-b and it crosses u-v; n where there is none.
// Kept (1): n is what the search for the least begins with, as LeastAt states it.
// An Option would be taken apart at each comparison of `better_of`.
fn least_beside(
    w: &[u32],
    q: &[f64],
    lay: Layout,
    n: usize,
    bucket: f64,
    u: usize,
    v: usize,
    a: usize,
) -> usize
    requires known { (m : Mesh) × Known w.now q.now lay.slots lay.points n bucket m }
    requires segment { Segment n u v }
    requires a_lt_n { a < n }
    ensures { (m : Mesh) → Known w.now q.now lay.slots lay.points n bucket m → LeastAt m n u v a result }
{
    let d = side(q, u, v, a);
    let mut best = n;
    let mut c = next(
        w,
        BEFORE * lay.slots,
        CORNERS * lay.slots + lay.points,
        CORNERS * lay.slots + a,
    );
    while c < CORNERS * lay.slots {
        let one = better_of(q, n, bucket, u, v, a, d, node_after(w, lay.slots, c), best);
        best = better_of(q, n, bucket, u, v, a, d, node_before(w, lay.slots, c), one);
        c = next(w, BEFORE * lay.slots, CORNERS * lay.slots + lay.points, c);
    }
    best
}

// The least b above a such that the mesh has the edge a-b and it crosses u-v; n where there is none.
// The box of a is noted; where it lies beyond the limits of u-v, the neighbours of a are not read.
// Kept (1): it hands on the number of `least_beside`, by the same LeastAt.
fn least_near(
    w: &mut [u32],
    q: &[f64],
    lay: Layout,
    n: usize,
    bucket: f64,
    u: usize,
    v: usize,
    a: usize,
    l: Limits,
) -> usize
    requires known { (m : Mesh) × Known w.old q.now lay.slots lay.points n bucket m }
    requires segment { Segment n u v }
    requires a_lt_n { a < n }
    requires limits { IsLimits bucket (point_at q.now u) (point_at q.now v) l }
    ensures keeps { Keeps w.old w.new (mesh_end lay.slots lay.points) }
    ensures is { (m : Mesh) → Known w.old q.now lay.slots lay.points n bucket m → Known w.new q.now lay.slots lay.points n bucket m × LeastAt m n u v a result }
{
    if passed_over(w, q, lay, n, a, l) {
        return n;
    }
    least_beside(w, q, lay, n, bucket, u, v, a)
}

// The smallest edge that crosses u-v, by node numbers, where none does whose smaller node is below `from`.
// Boxes that were not known are noted.
pub fn first_crossing(
    w: &mut [u32],
    q: &[f64],
    lay: Layout,
    n: usize,
    bucket: f64,
    u: usize,
    v: usize,
    from: usize,
) -> Option<(usize, usize)>
    requires known { (m : Mesh) × Known w.old q.now lay.slots lay.points n bucket m }
    requires segment { Segment n u v }
    requires from_le_n { from ≤ n }
    ensures keeps { Keeps w.old w.new (mesh_end lay.slots lay.points) }
    ensures is { (m : Mesh) → Known w.old q.now lay.slots lay.points n bucket m → Known w.new q.now lay.slots lay.points n bucket m × (NoneBelow m u v from → IsFirst m n u v result) }
{
    let l = limits_of(q, bucket, u, v);
    for a in from..n {
        let b = least_near(w, q, lay, n, bucket, u, v, a, l);
        if b < n {
            return Some((a, b));
        }
    }
    None
}
