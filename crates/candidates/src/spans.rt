// The node numbers between which the side nodes for an end are looked for:
// nodes near each other mostly have numbers near each other.
ghost use Rattle.std.specs.Prelude.{◌≡◌, true, List, ◌<◌, length, Float};
ghost use Rattle.definition.specs.Cells.{Live, Mesh};
ghost use Rattle.cells.specs.Rep.{Rep, TriIn};
ghost use Rattle.side_candidates.specs.Hand.{InHand};
ghost use Rattle.candidates.specs.Spans.{Widens, Grows, OfTri, OfRegion, Beside, Spans};

use cells::find::{node, node_after, node_before};
use cells::layout::{BEFORE, CORNERS, Layout};
use rings::next;
use words::wide;

// The numbers from low to high, both included.
#[derive(Clone, Copy)]
pub struct Span {
    pub low: usize,
    pub high: usize,
}

// The span with v in it.
fn widened(g: Span, v: usize) -> Span
    ensures { Widens g v result }
{
    Span {
        low: g.low.min(v),
        high: g.high.max(v),
    }
}

// The span with the nodes of the triangle in slot i in it.
fn with_triangle(w: &[u32], lay: Layout, i: usize, g: Span) -> Span
    requires rep { (m : Mesh) × Rep w.now lay.slots lay.points m × TriIn m i }
    requires i_lt_s { i < lay.slots }
    ensures { (m : Mesh) → Rep w.now lay.slots lay.points m → (t : TriIn m i) → Grows (length m.points) (OfTri t.t) g result }
{
    let one = widened(g, node(w, lay.slots, i, 0));
    let two = widened(one, node(w, lay.slots, i, 1));
    widened(two, node(w, lay.slots, i, 2))
}

// The span with the nodes of the region of k triangles in hand in it.
fn with_region(w: &[u32], lay: Layout, k: usize, g: Span) -> Span
    requires { (q : List Float) × (m : Mesh) × (region : List Live) × InHand w.now q lay.slots lay.points k m region }
    ensures { (q : List Float) (m : Mesh) (region : List Live) → InHand w.now q lay.slots lay.points k m region → Grows (length m.points) (OfRegion region) g result }
{
    let mut h = g;
    for i in 0..k {
        h = with_triangle(w, lay, wide(w[lay.list_at() + i]), h);
    }
    h
}

// The span with the nodes that have an edge with a in it.
fn with_ring(w: &[u32], lay: Layout, a: usize, g: Span) -> Span
    requires { (m : Mesh) × Rep w.now lay.slots lay.points m × (a < length m.points) }
    ensures { (m : Mesh) → Rep w.now lay.slots lay.points m → a < length m.points → Grows (length m.points) (Beside m a) g result }
{
    let mut h = g;
    let mut c = next(
        w,
        BEFORE * lay.slots,
        CORNERS * lay.slots + lay.points,
        CORNERS * lay.slots + a,
    );
    while c < CORNERS * lay.slots {
        let one = widened(h, node_after(w, lay.slots, c));
        h = widened(one, node_before(w, lay.slots, c));
        c = next(w, BEFORE * lay.slots, CORNERS * lay.slots + lay.points, c);
    }
    h
}

// A span that has the nodes of the region of k triangles in hand and those that have an edge with a:
// there is no side node for a outside.
pub fn span_for(w: &[u32], lay: Layout, k: usize, a: usize) -> Span
    requires { (q : List Float) × (m : Mesh) × (region : List Live) × InHand w.now q lay.slots lay.points k m region × (a < length m.points) }
    ensures { (q : List Float) (m : Mesh) (region : List Live) → InHand w.now q lay.slots lay.points k m region → a < length m.points → Spans m a region result }
{
    let g = Span { low: a, high: a };
    let h = with_region(w, lay, k, g);
    with_ring(w, lay, a, h)
}
