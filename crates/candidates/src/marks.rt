// What is known of the nodes of a span before they are scanned, a word each where the side nodes will stand:
// it is odd for a node of the region in hand, and 2 or more for a node that has an edge with the end.
ghost use Rattle.std.specs.Prelude.{List, ◌<◌, eqb, length, Float};
ghost use Rattle.definition.specs.Cells.{Live, Mesh, tri_has};
ghost use Rattle.cells.specs.Rep.{Rep, TriIn};
ghost use Rattle.side_candidates.specs.Hand.{InHand};
ghost use Rattle.candidates.specs.Words.{Spare, Cleared, Put, of_region, Raised, RaisedBy, CanMark, MarkedTo, CanSkip, NextTold};

use crate::spans::Span;
use cells::clear::clear_range;
use cells::find::{node, node_after, node_before};
use cells::layout::{BEFORE, CORNERS, Layout};
use rings::next;
use words::wide;

// The words of the span's nodes are 0.
fn clear_span(w: &mut [u32], p: usize, b: usize, g: Span)
    requires spare { Spare w.old p b }
    requires high_lt_p { g.high < p }
    ensures { Cleared w.old w.new p b g }
{
    if g.high < g.low {
        return;
    }
    clear_range(w, b + g.low, g.high - g.low + 1);
}

// The word of v is 1.
fn put(w: &mut [u32], p: usize, b: usize, v: usize)
    requires spare { Spare w.old p b }
    requires v_lt_p { v < p }
    ensures { Put w.old w.new p b (eqb v) }
{
    w[b + v] = 1;
}

// The words of the nodes of the triangle in slot i are 1.
fn mark_cell(w: &mut [u32], lay: Layout, b: usize, i: usize)
    requires can_mark { CanMark w.old lay.slots lay.points b }
    requires rep { (m : Mesh) × Rep w.old lay.slots lay.points m × TriIn m i }
    requires i_lt_s { i < lay.slots }
    ensures { (m : Mesh) → Rep w.old lay.slots lay.points m → (t : TriIn m i) → Put w.old w.new lay.points b (tri_has t.t) }
{
    let x = node(w, lay.slots, i, 0);
    let y = node(w, lay.slots, i, 1);
    let z = node(w, lay.slots, i, 2);
    put(w, lay.points, b, x);
    put(w, lay.points, b, y);
    put(w, lay.points, b, z);
}

// The words of the nodes of the region of k triangles in hand are 1.
fn mark_region(w: &mut [u32], lay: Layout, k: usize, b: usize)
    requires can_mark { CanMark w.old lay.slots lay.points b }
    requires in_hand { (q : List Float) × (m : Mesh) × (region : List Live) × InHand w.old q lay.slots lay.points k m region }
    ensures { (q : List Float) (m : Mesh) (region : List Live) → InHand w.old q lay.slots lay.points k m region → Put w.old w.new lay.points b (of_region region) }
{
    for i in 0..k {
        let j = wide(w[lay.list_at() + i]);
        mark_cell(w, lay, b, j);
    }
}

// The word of v becomes 2 or more, and stays odd or even.
fn raise(w: &mut [u32], p: usize, b: usize, v: usize)
    requires spare { Spare w.old p b }
    requires v_lt_p { v < p }
    ensures { Raised w.old w.new p b v }
{
    w[b + v] = w[b + v] % 2 + 2;
}

// The words of the nodes that have an edge with a become 2 or more, and stay odd or even.
fn mark_ring(w: &mut [u32], lay: Layout, b: usize, a: usize)
    requires can_mark { CanMark w.old lay.slots lay.points b }
    requires rep { (m : Mesh) × Rep w.old lay.slots lay.points m × (a < length m.points) }
    ensures { (m : Mesh) → Rep w.old lay.slots lay.points m → a < length m.points → RaisedBy w.old w.new lay.points b m a }
{
    let mut c = next(
        w,
        BEFORE * lay.slots,
        CORNERS * lay.slots + lay.points,
        CORNERS * lay.slots + a,
    );
    while c < CORNERS * lay.slots {
        raise(w, lay.points, b, node_after(w, lay.slots, c));
        raise(w, lay.points, b, node_before(w, lay.slots, c));
        c = next(w, BEFORE * lay.slots, CORNERS * lay.slots + lay.points, c);
    }
}

// The words from b on tell of each node of the span whether it is one of the region of k triangles in hand,
// and of the others that have no edge with a.
pub fn mark_nodes(w: &mut [u32], lay: Layout, k: usize, b: usize, a: usize, g: Span)
    requires can_mark { CanMark w.old lay.slots lay.points b }
    requires in_hand { (q : List Float) × (m : Mesh) × (region : List Live) × InHand w.old q lay.slots lay.points k m region × (a < length m.points) × (g.high < length m.points) }
    ensures { (q : List Float) (m : Mesh) (region : List Live) → InHand w.old q lay.slots lay.points k m region → a < length m.points → g.high < length m.points → MarkedTo w.old w.new lay.points b m a region g }
{
    clear_span(w, lay.points, b, g);
    mark_region(w, lay, k, b);
    mark_ring(w, lay, b, a);
}

// The first node from `from` to `high` whose word is not 0, if there is one: no other node can be a side node.
// Not inlined, and a range that ends before `high + 1`: the search over the words of far nodes stays a short loop.
#[inline(never)]
pub fn next_told(w: &[u32], b: usize, from: usize, high: usize) -> Option<usize>
    requires { CanSkip w.now b from high }
    ensures { NextTold w.now b from high result }
{
    for v in from..high + 1 {
        if w[b + v] != 0 {
            return Some(v);
        }
    }
    None
}
