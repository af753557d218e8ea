// The side nodes for an end of a front edge, ascending.
#![tactic(auto)]

pub mod aim;
mod marks;
mod spans;

ghost use Rattle.std.specs.Prelude.{◌≡◌, List, ◌+◌, ◌*◌, ◌<◌, ◌≤◌, length};
ghost use Rattle.definition.specs.Floats.{◌⊕◌, ◌⊗◌};
ghost use Rattle.definition.specs.Lists.{filter, below};
ghost use Rattle.definition.specs.Numbers.{side_margin};
ghost use Rattle.definition.specs.Cells.{Live, Mesh, node_at};
ghost use Rattle.definition.specs.Candidates.{live_region, candidates};
ghost use Rattle.plane.specs.Vectors.{vec};
ghost use Rattle.rules.specs.Settings.{quality_of};
ghost use Rattle.live_regions.specs.Stack.{Lent, LiveTo};
ghost use Rattle.side_candidates.specs.Hand.{fenced, Ends};
ghost use Rattle.side_candidates.specs.Blocks.{Boxes, Fence};
ghost use Rattle.cells.specs.Rep.{Rep, Pts};
ghost use Rattle.edge_candidates.specs.Wanted.{turn, At, by_edge};
ghost use Rattle.edge_candidates.specs.Wishes.{Wished};
ghost use Rattle.candidates.specs.Spans.{Beside};
ghost use Rattle.candidates.specs.Words.{Told};
ghost use Rattle.candidates.specs.Choice.{CanChoose, ChosenTo, too_far, FarFrom, is_choice, CanScan, CanPick, ScannedTo};

use crate::aim::{Aim, Known};
use crate::marks::{mark_nodes, next_told};
use crate::spans::{Span, span_for};
use cells::layout::Layout;
use edge_candidates::wishes::{Wish, add, wish_at};
use edge_candidates::{EDGE_HIGH, edge_candidate};
use live_regions::live::live_region;
use live_regions::reach::square;
use plane::floats::greater;
use plane::points::at;
use plane::vectors::{Vec, from_to, norm};
use rules::Quality;
use side_candidates::blocks::{Blocks, Frame, box_walls};
use side_candidates::inside::keep_walls;
use side_candidates::sides::{ahead, in_view_boxed};

// Side nodes are looked for within the set's high factor and this many targets more.
pub const SIDE_MARGIN: f64 = 0.8;

// A length is tried as too far at this many times the greater of both kinds' high factors.
const FARTHER: f64 = 1.001;

// With fewer triangles that have a wall than this no boxes are made.
const FEW_WALLS: usize = 64;

// The most boxes around walls.
const BOXES: usize = 64;

// A box before it is made.
const NO_BOX: Frame = Frame {
    x0: 0.0,
    x1: 0.0,
    y0: 0.0,
    y1: 0.0,
};

// The fewest triangles in a block with a box.
const LEAST_BLOCK: usize = 4;

// A length beyond the reach of either kind of candidate.
fn too_far(y: Quality, d: f64, target: f64) -> bool
    ensures { result ≡ too_far (quality_of y) d target }
{
    if d > EDGE_HIGH * target {
        return d > y.side_high * target;
    }
    false
}

// A number that the square of a length is beyond only where the length is too far, so that the root need not be taken; infinity where none is found.
// Kept (1): infinity is such a number, beyond which nothing is, so one test serves; an Option is a second test.
fn far_square(y: Quality, target: f64) -> f64
    ensures { FarFrom (quality_of y) result target }
{
    let d = Vec {
        dx: greater(EDGE_HIGH, y.side_high) * target * FARTHER,
        dy: 0.0,
    };
    let z = square(d);
    if too_far(y, norm(d), target) {
        return z;
    }
    1.0 / 0.0
}

// v is an edge candidate, by what is wanted; its word `here` is 2 or more where it has an edge with the end.
fn by_edge(w: &[u32], q: &[f64], lay: Layout, o: Known, v: usize, here: u32) -> bool
    requires { (m : Mesh) × Rep w.now lay.slots lay.points m × Pts q.now lay.points m × Wished w.now q.now lay.slots o.at o.wish m o.aim.end o.aim.other × At m o.aim.end v }
    ensures { (m : Mesh) → Rep w.now lay.slots lay.points m → Pts q.now lay.points m → Wished w.now q.now lay.slots o.at o.wish m o.aim.end o.aim.other → At m o.aim.end v → (Beside m o.aim.end v → 2 ≤ here) → result ≡ by_edge (turn o.aim.left) m o.aim.end o.aim.other o.aim.target v }
{
    if here < 2 {
        return false;
    }
    edge_candidate(
        w,
        q,
        lay,
        o.aim.end,
        o.aim.other,
        o.aim.target,
        o.aim.left,
        o.at,
        o.wish,
        v,
    )
}

// v is a side node: an edge candidate, or a side candidate in the region, where its word `here` is odd. A node that is too far is none, which is found out first. The k triangles of the region that have a wall are in hand, in blocks with boxes.
fn is_choice(
    w: &[u32],
    q: &[f64],
    lay: Layout,
    k: usize,
    h: Blocks,
    o: Known,
    v: usize,
    here: u32,
) -> bool
    requires { (m : Mesh) × (region : List Live) × Fence w.now q.now lay.slots lay.points k h.boxes.now h.size m (filter (fenced m) region) × Wished w.now q.now lay.slots o.at o.wish m o.aim.end o.aim.other × Ends m o.aim.end v × Told m o.aim.end region v here }
    ensures { (m : Mesh) (region : List Live) → Fence w.now q.now lay.slots lay.points k h.entry.boxes.now h.entry.size m (filter (fenced m) region) → Wished w.now q.now lay.slots o.at o.wish m o.aim.end o.aim.other → Ends m o.aim.end v → Told m o.aim.end region v here → result ≡ is_choice (quality_of o.aim.quality) (turn o.aim.left) m o.aim.end o.aim.other (vec o.aim.normal) o.aim.target region v }
{
    if by_edge(w, q, lay, o, v, here) {
        return true;
    }
    if here % 2 == 0 {
        return false;
    }
    let d = from_to(q, o.aim.end, v);
    if square(d) > o.far {
        return false;
    }
    if !ahead(o.aim.quality, o.aim.normal, d, o.aim.target) {
        return false;
    }
    in_view_boxed(w, q, lay, k, h, o.aim.end, o.aim.other, v)
}

// The side nodes, all in the span g, ascending, come to b; how many they are.
// The k triangles of the region that have a wall are in hand, in blocks with boxes.
// Words from b on tell of the nodes of the span, each until a side node may stand there.
fn pick_among(
    w: &mut [u32],
    q: &[f64],
    lay: Layout,
    k: usize,
    h: Blocks,
    b: usize,
    o: Known,
    g: Span,
) -> usize
    requires { (m : Mesh) × (region : List Live) × CanPick w.old q.now lay.slots lay.points k b o.aim.end o.aim.other o.at o.wish g m region × Boxes h.boxes.now h.size k m (filter (fenced m) region) }
    ensures { (m : Mesh) (region : List Live) → CanPick w.old q.now lay.slots lay.points k b o.aim.end o.aim.other o.at o.wish g m region → Boxes h.entry.boxes.now h.entry.size k m (filter (fenced m) region) → ScannedTo w.old w.new lay.slots lay.points (length m.points) b result (filter (is_choice (quality_of o.aim.quality) (turn o.aim.left) m o.aim.end o.aim.other (vec o.aim.normal) o.aim.target region) (below (length m.points))) }
{
    let mut r: usize = 0;
    let mut from = g.low;
    while let Some(v) = next_told(w, b, from, g.high) {
        let yes = is_choice(w, q, lay, k, h, o, v, w[b + v]);
        r = add(w, b, r, v, yes);
        from = v + 1;
    }
    r
}

// Like `pick`, with boxes around the walls of blocks of triangles.
fn pick_boxed(w: &mut [u32], q: &[f64], lay: Layout, k: usize, b: usize, o: Known, g: Span) -> usize
    requires can_pick { (m : Mesh) × (region : List Live) × CanPick w.old q.now lay.slots lay.points k b o.aim.end o.aim.other o.at o.wish g m region }
    requires le_k { 64 ≤ k }
    ensures { (m : Mesh) (region : List Live) → CanPick w.old q.now lay.slots lay.points k b o.aim.end o.aim.other o.at o.wish g m region → ScannedTo w.old w.new lay.slots lay.points (length m.points) b result (filter (is_choice (quality_of o.aim.quality) (turn o.aim.left) m o.aim.end o.aim.other (vec o.aim.normal) o.aim.target region) (below (length m.points))) }
{
    let mut h = [NO_BOX; BOXES];
    let size = k / BOXES + LEAST_BLOCK;
    box_walls(w, q, lay, k, size, &mut h);
    pick_among(w, q, lay, k, Blocks { boxes: &h, size }, b, o, g)
}

// The side nodes, all in the span g, ascending, come to b; how many they are.
// The k triangles of the region that have a wall are in hand.
// Words from b on tell of the nodes of the span, each until a side node may stand there.
// Few triangles are gone through without boxes.
fn pick(w: &mut [u32], q: &[f64], lay: Layout, k: usize, b: usize, o: Known, g: Span) -> usize
    requires { (m : Mesh) × (region : List Live) × CanPick w.old q.now lay.slots lay.points k b o.aim.end o.aim.other o.at o.wish g m region }
    ensures { (m : Mesh) (region : List Live) → CanPick w.old q.now lay.slots lay.points k b o.aim.end o.aim.other o.at o.wish g m region → ScannedTo w.old w.new lay.slots lay.points (length m.points) b result (filter (is_choice (quality_of o.aim.quality) (turn o.aim.left) m o.aim.end o.aim.other (vec o.aim.normal) o.aim.target region) (below (length m.points))) }
{
    if k < FEW_WALLS {
        let none = Blocks {
            boxes: &[],
            size: k + 1,
        };
        return pick_among(w, q, lay, k, none, b, o, g);
    }
    pick_boxed(w, q, lay, k, b, o, g)
}

// The side nodes, with the region of k triangles in hand and what is wanted listed from i on, ascending, come to b;
// how many they are.
// Only nodes of that region and nodes that have an edge with the end can be such.
fn scan(
    w: &mut [u32],
    q: &[f64],
    lay: Layout,
    k: usize,
    n: usize,
    b: usize,
    aim: Aim,
    i: usize,
    o: Wish,
) -> usize
    requires { (m : Mesh) × (region : List Live) × CanScan w.old q.now lay.slots lay.points k n b aim.end aim.other i o m region }
    ensures { (m : Mesh) (region : List Live) → CanScan w.old q.now lay.slots lay.points k n b aim.end aim.other i o m region → ScannedTo w.old w.new lay.slots lay.points n b result (filter (is_choice (quality_of aim.quality) (turn aim.left) m aim.end aim.other (vec aim.normal) aim.target region) (below n)) }
{
    let g = span_for(w, lay, k, aim.end);
    mark_nodes(w, lay, k, b, aim.end, g);
    let fenced = keep_walls(w, lay, k);
    let known = Known {
        aim,
        far: far_square(aim.quality, aim.target),
        at: i,
        wish: o,
    };
    pick(w, q, lay, fenced, b, known, g)
}

// The live region around the end that its side nodes are looked for in; how many triangles it has.
fn region_around(w: &mut [u32], q: &[f64], lay: Layout, used: usize, seed: usize, aim: Aim) -> usize
    requires lent { (m : Mesh) × Lent w.old q.now lay.slots lay.points used m × (aim.end < length m.points) }
    requires seed_lt_s { seed < lay.slots }
    ensures { (m : Mesh) → Lent w.old q.now lay.slots lay.points used m → aim.end < length m.points → LiveTo w.old w.new lay.slots lay.points result m (live_region m seed (node_at m aim.end) (((quality_of aim.quality).side_high ⊕ side_margin) ⊗ aim.target)) }
{
    let o = at(q, aim.end);
    let r = (aim.quality.side_high + SIDE_MARGIN) * aim.target;
    live_region(w, q, lay, used, seed, o.x, o.y, r)
}

// The side nodes for an end, ascending, come to `at`; how many they are. What is wanted there is listed where the stack of the region was.
pub fn candidates(
    w: &mut [u32],
    q: &[f64],
    lay: Layout,
    used: usize,
    n: usize,
    at: usize,
    seed: usize,
    aim: Aim,
) -> usize
    requires { (m : Mesh) × CanChoose w.old q.now lay.slots lay.points used n at aim.end aim.other seed m }
    ensures { (m : Mesh) → CanChoose w.old q.now lay.slots lay.points used n at aim.end aim.other seed m → ChosenTo w.old w.new lay.slots lay.points n at result (candidates (quality_of aim.quality) (turn aim.left) m aim.end aim.other seed (vec aim.normal) aim.target) }
{
    let k = region_around(w, q, lay, used, seed, aim);
    let i = lay.stack_at();
    let o = wish_at(w, q, lay, aim.end, aim.other, i);
    scan(w, q, lay, k, n, at, aim, i, o)
}
