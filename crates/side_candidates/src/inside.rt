// The segment between two nodes stays inside the region in hand.
ghost use Rattle.std.specs.Prelude.{◌≡◌, List, true, ◌+◌, ◌*◌, ◌^◌, ◌<◌, ◌≤◌, length, Float};
ghost use Rattle.definition.specs.Lists.{filter, all};
ghost use Rattle.definition.specs.Cells.{Live, Mesh, tri, new_live, key, tri_edges};
ghost use Rattle.definition.specs.Candidates.{passes_by, walls, segment_inside};
ghost use Rattle.cells.specs.Rep.{Rep, Pts, TriIn};
ghost use Rattle.cells.specs.Walk.{IsEdge};
ghost use Rattle.live_regions.specs.Walls.{wall_mark};
ghost use Rattle.side_candidates.specs.Hand.{InHand, fenced, KeptTo, Ends, open_edge};
ghost use Rattle.side_candidates.specs.Blocks.{frame_at, Fence, Beside, Through, CanPass, CanSkip};

use crate::blocks::{Blocks, Frame, Line};
use cells::find::node;
use cells::layout::Layout;
use plane::sides::segments_cross;
use words::wide;

// The segment a b does not cross the edge from u to v, unless they share a node.
fn passes_by(q: &[f64], p: usize, a: usize, b: usize, u: usize, v: usize) -> bool
    requires { (m : Mesh) × Pts q.now p m × Ends m a b × Ends m u v }
    ensures { (m : Mesh) → Pts q.now p m → Ends m a b → Ends m u v → result ≡ passes_by m a b (u, v) }
{
    if u == a {
        return true;
    }
    if v == a {
        return true;
    }
    if u == b {
        return true;
    }
    if v == b {
        return true;
    }
    !segments_cross(q, a, b, u, v)
}

// The segment a b does not cross the edge u-v, unless they share a node.
fn clears(q: &[f64], p: usize, a: usize, b: usize, u: usize, v: usize) -> bool
    requires pts { (m : Mesh) × Pts q.now p m × Ends m a b × Ends m u v }
    requires edge { IsEdge p u v }
    ensures { (m : Mesh) → Pts q.now p m → Ends m a b → Ends m u v → result ≡ passes_by m a b (key u v) }
{
    if u < v {
        return passes_by(q, p, a, b, u, v);
    }
    passes_by(q, p, a, b, v, u)
}

// The segment a b crosses no wall of the triangle in slot i, unless they share a node; its mark f tells its walls.
fn open_cell(w: &[u32], q: &[f64], lay: Layout, a: usize, b: usize, i: usize, f: u32) -> bool
    requires rep { (m : Mesh) × Rep w.now lay.slots lay.points m × Pts q.now lay.points m × Ends m a b × TriIn m i }
    requires i_lt_s { i < lay.slots }
    ensures { (m : Mesh) → Rep w.now lay.slots lay.points m → Pts q.now lay.points m → Ends m a b → (t : TriIn m i) → f ≡ wall_mark m (new_live i (tri t.t)) → result ≡ all (open_edge m a b) (tri_edges t.t) }
{
    if f == 8 {
        return true;
    }
    let x = node(w, lay.slots, i, 0);
    let y = node(w, lay.slots, i, 1);
    let z = node(w, lay.slots, i, 2);
    if f % 2 != 0 {
        if !clears(q, lay.points, a, b, x, y) {
            return false;
        }
    }
    if f / 2 % 2 != 0 {
        if !clears(q, lay.points, a, b, y, z) {
            return false;
        }
    }
    if f / 4 % 2 != 0 {
        return clears(q, lay.points, a, b, z, x);
    }
    true
}

// The segment a b crosses no wall of the cells in hand at the places from j up to k, unless they share a node.
fn cells_open(
    w: &[u32],
    q: &[f64],
    lay: Layout,
    n: usize,
    j: usize,
    k: usize,
    a: usize,
    b: usize,
) -> bool
    requires can_pass { (m : Mesh) × (region : List Live) × CanPass w.now q.now lay.slots lay.points n j m region a b }
    requires j_le_k { (j ≤ k) × (k ≤ n) }
    ensures { (m : Mesh) (region : List Live) → CanPass w.now q.now lay.slots lay.points n j m region a b → Through w.now lay.slots lay.points n k m a b (segment_inside m a b (walls m region)) result }
{
    let at = lay.list_at();
    let marks = lay.marks_at();
    for g in j..k {
        let i = wide(w[at + g]);
        if !open_cell(w, q, lay, a, b, i, w[marks + i]) {
            return false;
        }
    }
    true
}

// Box j is there, and lies on one side of the line.
fn passed(h: &[Frame], j: usize, o: Line) -> bool
    ensures { result ≡ true → (j < length h.now) × Beside (frame_at h.now j) o }
{
    j < h.len() && h[j].is_beside(o)
}

// The segment a b crosses no wall of block j, of so many cells, the first at place k, unless they share a node.
// None is tried where the line o of the segment passes by the block's box.
fn block_open(
    w: &[u32],
    q: &[f64],
    lay: Layout,
    n: usize,
    k: usize,
    h: Blocks,
    j: usize,
    o: Line,
    a: usize,
    b: usize,
) -> bool
    requires can_skip { (m : Mesh) × (region : List Live) × CanSkip w.now q.now lay.slots lay.points n k h.boxes.now h.size j o m region a b }
    requires k_lt_n { (k < n) × (j < 2 ^ 32) }
    ensures { (m : Mesh) (region : List Live) → CanSkip w.now q.now lay.slots lay.points n k h.entry.boxes.now h.entry.size j o m region a b → Through w.now lay.slots lay.points n (k + h.entry.size) m a b (segment_inside m a b (walls m region)) result }
{
    if passed(h.boxes, j, o) {
        return true;
    }
    if n - k < h.size {
        return cells_open(w, q, lay, n, k, n, a, b);
    }
    cells_open(w, q, lay, n, k, k + h.size, a, b)
}

// The segment a b crosses no wall of the region in hand, block after block, unless they share a node.
fn blocks_open(w: &[u32], q: &[f64], lay: Layout, n: usize, h: Blocks, a: usize, b: usize) -> bool
    requires { (m : Mesh) × (region : List Live) × Fence w.now q.now lay.slots lay.points n h.boxes.now h.size m region × Ends m a b }
    ensures { (m : Mesh) (region : List Live) → Fence w.now q.now lay.slots lay.points n h.entry.boxes.now h.entry.size m region → Ends m a b → result ≡ segment_inside m a b (walls m region) }
{
    let o = Line::through(q, a, b);
    for j in 0..n.div_ceil(h.size) {
        if !block_open(w, q, lay, n, j * h.size, h, j, o, a, b) {
            return false;
        }
    }
    true
}

// The segment a b crosses none of the edges of the region in hand that two triangles do not share.
pub fn segment_inside(w: &[u32], q: &[f64], lay: Layout, n: usize, a: usize, b: usize) -> bool
    requires { (m : Mesh) × (region : List Live) × InHand w.now q.now lay.slots lay.points n m region × Ends m a b }
    ensures { (m : Mesh) (region : List Live) → InHand w.now q.now lay.slots lay.points n m region → Ends m a b → result ≡ segment_inside m a b (walls m region) }
{
    cells_open(w, q, lay, n, 0, n, a, b)
}

// Like `segment_inside`, for a region in blocks with boxes; no box is tried where it has fewer triangles than a block.
pub fn segment_inside_boxed(
    w: &[u32],
    q: &[f64],
    lay: Layout,
    n: usize,
    h: Blocks,
    a: usize,
    b: usize,
) -> bool
    requires { (m : Mesh) × (region : List Live) × Fence w.now q.now lay.slots lay.points n h.boxes.now h.size m region × Ends m a b }
    ensures { (m : Mesh) (region : List Live) → Fence w.now q.now lay.slots lay.points n h.entry.boxes.now h.entry.size m region → Ends m a b → result ≡ segment_inside m a b (walls m region) }
{
    if n < h.size {
        return segment_inside(w, q, lay, n, a, b);
    }
    blocks_open(w, q, lay, n, h, a, b)
}

// Of the region of k triangles in hand those with a wall are kept, in their order; how many they are.
// A segment is tried against no others.
pub fn keep_walls(w: &mut [u32], lay: Layout, k: usize) -> usize
    requires { (q : List Float) × (m : Mesh) × (region : List Live) × InHand w.old q lay.slots lay.points k m region }
    ensures { (q : List Float) (m : Mesh) (region : List Live) → InHand w.old q lay.slots lay.points k m region → KeptTo w.old w.new q lay.slots lay.points result m (filter (fenced m) region) }
{
    let at = lay.list_at();
    let marks = lay.marks_at();
    let mut r: usize = 0;
    for i in 0..k {
        let c = w[at + i];
        let f = w[marks + wide(c)];
        if f != 8 {
            w[at + r] = c;
            r += 1;
        }
    }
    r
}
