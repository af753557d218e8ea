// Boxes around a node and its neighbours, by which the node is passed over.
ghost use Rattle.std.specs.Prelude.{◌≡◌, true, ◌^◌, ◌≤◌, ◌<◌, Float};
ghost use Rattle.definition.specs.Cells.{Mesh};
ghost use Rattle.definition.specs.Call.{point_at};
ghost use Rattle.laws.specs.Frames.{Keeps};
ghost use Rattle.plane.specs.Points.{Within, node, ground};
ghost use Rattle.cells.specs.Layout.{mesh_end};
ghost use Rattle.cells.specs.Rep.{Room};
ghost use Rattle.cells.specs.Notes.{note, bound};
ghost use Rattle.crossings.specs.Cross.{Known};
ghost use Rattle.crossings.specs.Boxes.{up, down, Starts, Picks, StartsAt, Widens, Bounds, AllFine, CanNote, with_box, CanLook, Beyond, Away};

use crate::buckets::Limits;
use cells::find::{node_after, node_before};
use cells::layout::{BEFORE, CORNERS, Layout};
use plane::points::{Spot, at};
use rings::next;
use words::wide;

// A node that bounds others on one side, its coordinate, and whether all coordinates compared.
// Kept (1): the flag says nothing of whether there is a node: Starts and Picks state node, coordinate and flag at once.
// An Option of the side would be opened in `lower` and `upper`, four times in `widen` and twice for each corner in `box_of`.
#[derive(Clone, Copy)]
pub struct Side {
    pub node: usize,
    pub at: f64,
    pub fine: bool,
}

// The four sides of a box.
#[derive(Clone, Copy)]
pub struct Sides {
    pub left: Side,
    pub right: Side,
    pub low: Side,
    pub high: Side,
}

// ---- a box made

// The node i alone, at x.
fn alone(i: usize, x: f64) -> Side
    ensures { Starts i x result }
{
    Side {
        node: i,
        at: x,
        fine: x <= x,
    }
}

// The lower of a side and the node i at x.
// Kept (4): f64's `min` and `max` tell neither which node it was nor whether the two compared.
fn lower(b: Side, i: usize, x: f64) -> Side
    ensures { Picks up b i x result }
{
    if b.at <= x {
        return b;
    }
    if x <= b.at {
        return Side {
            node: i,
            at: x,
            fine: b.fine,
        };
    }
    Side {
        node: b.node,
        at: b.at,
        fine: false,
    }
}

// The higher of a side and the node i at x.
// Kept (2): `lower` with the two comparisons exchanged, which the clauses have as up and down.
// One function would take both outcomes or a closure at each of four calls in `widen`, and say there what the names say.
// Kept (4): f64's `min` and `max` tell neither which node it was nor whether the two compared.
fn upper(b: Side, i: usize, x: f64) -> Side
    ensures { Picks down b i x result }
{
    if x <= b.at {
        return b;
    }
    if b.at <= x {
        return Side {
            node: i,
            at: x,
            fine: b.fine,
        };
    }
    Side {
        node: b.node,
        at: b.at,
        fine: false,
    }
}

// The box with the node i in it.
fn widen(q: &[f64], b: Sides, i: usize) -> Sides
    requires { Within q.now i }
    ensures { Widens b i (point_at q.now i) result }
{
    let t = at(q, i);
    let left = b.left;
    let right = b.right;
    let low = b.low;
    let high = b.high;
    Sides {
        left: lower(left, i, t.x),
        right: upper(right, i, t.x),
        low: lower(low, i, t.y),
        high: upper(high, i, t.y),
    }
}

// The box around the node i.
fn around(q: &[f64], i: usize) -> Sides
    requires { Within q.now i }
    ensures { StartsAt i (point_at q.now i) result }
{
    let t = at(q, i);
    Sides {
        left: alone(i, t.x),
        right: alone(i, t.x),
        low: alone(i, t.y),
        high: alone(i, t.y),
    }
}

// The box around a and its neighbours.
fn box_of(w: &[u32], q: &[f64], lay: Layout, n: usize, a: usize) -> Sides
    requires known { (k : Float) × (m : Mesh) × Known w.now q.now lay.slots lay.points n k m }
    requires a_lt_n { a < n }
    ensures { (k : Float) (m : Mesh) → Known w.now q.now lay.slots lay.points n k m → Bounds m a result }
{
    let mut b = around(q, a);
    let mut c = next(
        w,
        BEFORE * lay.slots,
        CORNERS * lay.slots + lay.points,
        CORNERS * lay.slots + a,
    );
    while c < CORNERS * lay.slots {
        let one = widen(q, b, node_after(w, lay.slots, c));
        b = widen(q, one, node_before(w, lay.slots, c));
        c = next(w, BEFORE * lay.slots, CORNERS * lay.slots + lay.points, c);
    }
    b
}

// ---- a box noted

// The box with the four nodes is noted at a.
fn put_box(w: &mut [u32], lay: Layout, a: usize, left: usize, right: usize, low: usize, high: usize)
    requires can_note { CanNote w.old lay.slots lay.points a }
    requires left_bound { (left < 2 ^ 32) × (right < 2 ^ 32) × (low < 2 ^ 32) × (high < 2 ^ 32) }
    ensures { w.new ≡ with_box w.old lay.slots lay.points a left right low high }
{
    w[lay.notes_at() + a] += 4;
    let k = lay.boxes_at() + 4 * a;
    w[k] = left as u32;
    w[k + 1] = right as u32;
    w[k + 2] = low as u32;
    w[k + 3] = high as u32;
}

// All coordinates compared.
fn all_fine(b: Sides) -> bool
    ensures { result ≡ true → AllFine b }
{
    if !b.left.fine {
        return false;
    }
    if !b.right.fine {
        return false;
    }
    if !b.low.fine {
        return false;
    }
    b.high.fine
}

// Makes and notes the box of a, unless some coordinates did not compare; whether it was noted.
fn make_box(w: &mut [u32], q: &[f64], lay: Layout, n: usize, a: usize) -> bool
    requires known { (k : Float) × (m : Mesh) × Known w.old q.now lay.slots lay.points n k m }
    requires a_lt_n { a < n }
    requires can_note { CanNote w.old lay.slots lay.points a }
    ensures keeps { Keeps w.old w.new (mesh_end lay.slots lay.points) }
    ensures is { (k : Float) (m : Mesh) → Known w.old q.now lay.slots lay.points n k m → Known w.new q.now lay.slots lay.points n k m }
    ensures noted { result ≡ true → 4 ≤ note w.new lay.slots lay.points a }
{
    let b = box_of(w, q, lay, n, a);
    if !all_fine(b) {
        return false;
    }
    put_box(
        w,
        lay,
        a,
        b.left.node,
        b.right.node,
        b.low.node,
        b.high.node,
    );
    true
}

// ---- a node passed over

// Side j of the box of a.
fn side_at(w: &[u32], q: &[f64], lay: Layout, a: usize, j: usize) -> Spot
    requires can_look { CanLook w.now q.now lay.slots lay.points a }
    requires j_bound { j < 4 }
    ensures { node result ≡ ground (point_at q.now (bound w.now lay.slots lay.points a j)) }
{
    at(q, wide(w[lay.boxes_at() + 4 * a + j]))
}

// The box of a lies beyond one of the limits.
fn far_off(w: &[u32], q: &[f64], lay: Layout, a: usize, l: Limits) -> bool
    requires { CanLook w.now q.now lay.slots lay.points a }
    ensures { result ≡ true → Beyond w.now q.now lay.slots lay.points a l }
{
    let right = side_at(w, q, lay, a, 1);
    if right.x <= l.x0 {
        return true;
    }
    let left = side_at(w, q, lay, a, 0);
    if left.x >= l.x1 {
        return true;
    }
    let high = side_at(w, q, lay, a, 3);
    if high.y <= l.y0 {
        return true;
    }
    let low = side_at(w, q, lay, a, 2);
    low.y >= l.y1
}

// The note of a.
fn note_of(w: &[u32], lay: Layout, a: usize) -> usize
    requires room { Room w.now lay.slots lay.points }
    requires a_lt_p { a < lay.points }
    ensures { result ≡ note w.now lay.slots lay.points a }
{
    wide(w[lay.notes_at() + a])
}

// The node a and its neighbours lie beyond one of the limits, by the box of a, which is noted if it was not.
pub fn passed_over(w: &mut [u32], q: &[f64], lay: Layout, n: usize, a: usize, l: Limits) -> bool
    requires known { (k : Float) × (m : Mesh) × Known w.old q.now lay.slots lay.points n k m }
    requires a_lt_n { a < n }
    ensures keeps { Keeps w.old w.new (mesh_end lay.slots lay.points) }
    ensures is { (k : Float) (m : Mesh) → Known w.old q.now lay.slots lay.points n k m → Known w.new q.now lay.slots lay.points n k m × (result ≡ true → Away m a l) }
{
    if a >= lay.slots {
        return false;
    }
    if note_of(w, lay, a) >= 4 {
        return far_off(w, q, lay, a, l);
    }
    if make_box(w, q, lay, n, a) {
        return far_off(w, q, lay, a, l);
    }
    false
}
