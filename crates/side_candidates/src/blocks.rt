// Blocks of the triangles in hand, each with a box around its walls: a segment whose line passes by a box crosses none of its walls.
ghost use Rattle.std.specs.Prelude.{◌≡◌, Bool, true, List, ℕ, ◌+◌, ◌*◌, ◌<◌, ◌≤◌, length, Float};
ghost use Rattle.definition.specs.Cells.{Live, Mesh, tri, new_live};
ghost use Rattle.definition.specs.Call.{point_at};
ghost use Rattle.plane.specs.Points.{Within};
ghost use Rattle.cells.specs.Rep.{Rep, Pts, TriIn};
ghost use Rattle.live_regions.specs.Walls.{wall_mark};
ghost use Rattle.side_candidates.specs.Hand.{InHand};
ghost use Rattle.side_candidates.specs.Blocks.{Low, High, Bounded, Holds, WithinToo, Sided, FramedTo, FramedFrom, Boxed, Leads, Ordered, Beside};

use cells::find::node;
use cells::layout::Layout;
use plane::points::at;
use words::wide;

// The least and the greatest x and y of some nodes; a NaN where coordinates do not compare.
#[derive(Clone, Copy)]
pub struct Frame {
    pub x0: f64,
    pub x1: f64,
    pub y0: f64,
    pub y1: f64,
}

// Boxes of blocks of the triangles in hand, so many triangles a block, from the first block on.
#[derive(Clone, Copy)]
pub struct Blocks<'a> {
    pub boxes: &'a [Frame],
    pub size: usize,
}

// The line through a node in a direction.
#[derive(Clone, Copy)]
pub struct Line {
    pub x: f64,
    pub y: f64,
    pub dx: f64,
    pub dy: f64,
}

// ---- a box made

// The lower one of a bound and x; a NaN where they do not compare.
fn lower(b: f64, x: f64) -> f64
    ensures { Bounded Low b x result }
{
    if b <= x {
        return b;
    }
    if x <= b {
        return x;
    }
    0.0 / 0.0
}

// The higher one.
fn upper(b: f64, x: f64) -> f64
    ensures { Bounded High b x result }
{
    if x <= b {
        return b;
    }
    if b <= x {
        return x;
    }
    0.0 / 0.0
}

impl Frame {
    // The box with the node v in it.
    fn with_node(self, q: &[f64], v: usize) -> Frame
        requires { Within q.now v }
        ensures here { Holds result (point_at q.now v) }
        ensures keeps { WithinToo self result }
    {
        let t = at(q, v);
        Frame {
            x0: lower(self.x0, t.x),
            x1: upper(self.x1, t.x),
            y0: lower(self.y0, t.y),
            y1: upper(self.y1, t.y),
        }
    }

    // The box with the nodes u and v in it, where `wall` says so.
    // Kept (7): the three edges of a triangle are told in one chain; a test around each call is three tests.
    fn with_side(self, q: &[f64], u: usize, v: usize, wall: bool) -> Frame
        requires { Within q.now u × Within q.now v }
        ensures { Sided self (point_at q.now u) (point_at q.now v) wall result }
    {
        if !wall {
            return self;
        }
        self.with_node(q, u).with_node(q, v)
    }
}

// The box with the walls of the triangle in slot i in it, by its mark f.
fn with_cell(w: &[u32], q: &[f64], lay: Layout, b: Frame, i: usize, f: u32) -> Frame
    requires rep { (m : Mesh) × Rep w.now lay.slots lay.points m × Pts q.now lay.points m × TriIn m i }
    requires i_lt_s { i < lay.slots }
    ensures { (m : Mesh) → Rep w.now lay.slots lay.points m → Pts q.now lay.points m → (t : TriIn m i) → f ≡ wall_mark m (new_live i (tri t.t)) → FramedTo m b result t.t }
{
    let x = node(w, lay.slots, i, 0);
    let y = node(w, lay.slots, i, 1);
    let z = node(w, lay.slots, i, 2);
    b.with_side(q, x, y, f % 2 != 0)
        .with_side(q, y, z, f / 2 % 2 != 0)
        .with_side(q, z, x, f / 4 % 2 != 0)
}

// The box around the walls of the cells in hand at the places from j up to k.
fn block_box(w: &[u32], q: &[f64], lay: Layout, n: usize, j: usize, k: usize) -> Frame
    requires in_hand { (m : Mesh) × (region : List Live) × InHand w.now q.now lay.slots lay.points n m region }
    requires j_le_k { (j ≤ k) × (k ≤ n) }
    ensures { (m : Mesh) (region : List Live) → InHand w.now q.now lay.slots lay.points n m region → FramedFrom m result region j k }
{
    let list = lay.list_at();
    let marks = lay.marks_at();
    let mut b = Frame {
        x0: 1.0 / 0.0,
        x1: -1.0 / 0.0,
        y0: 1.0 / 0.0,
        y1: -1.0 / 0.0,
    };
    for i in j..k {
        let c = wide(w[list + i]);
        b = with_cell(w, q, lay, b, c, w[marks + c]);
    }
    b
}

// The box of the block of so many cells that begins at place k.
fn box_from(w: &[u32], q: &[f64], lay: Layout, n: usize, k: usize, size: usize) -> Frame
    requires in_hand { (m : Mesh) × (region : List Live) × InHand w.now q.now lay.slots lay.points n m region }
    requires k_lt_n { (k < n) × (size ≤ n + 1) }
    ensures { (m : Mesh) (region : List Live) → InHand w.now q.now lay.slots lay.points n m region → (e : ℕ) → e ≤ k + size → e ≤ n → FramedFrom m result region k e }
{
    if n - k < size {
        return block_box(w, q, lay, n, k, n);
    }
    block_box(w, q, lay, n, k, k + size)
}

// The boxes of the blocks of so many cells in hand, as many as there is room for.
pub fn box_walls(w: &[u32], q: &[f64], lay: Layout, n: usize, size: usize, h: &mut [Frame])
    requires in_hand { (m : Mesh) × (region : List Live) × InHand w.now q.now lay.slots lay.points n m region }
    requires size_nonzero { (0 < size) × (size ≤ n + 1) }
    ensures { (m : Mesh) (region : List Live) → InHand w.now q.now lay.slots lay.points n m region → Boxed h.new size m region }
{
    let mut k: usize = 0;
    for b in h.iter_mut() {
        if k >= n {
            return;
        }
        *b = box_from(w, q, lay, n, k, size);
        k += size;
    }
}

// ---- a box beside a line

impl Line {
    // The line from the node a to the node b.
    pub fn through(q: &[f64], a: usize, b: usize) -> Line
        requires { Within q.now a × Within q.now b }
        ensures { Leads (point_at q.now a) (point_at q.now b) result }
    {
        let s = at(q, a);
        let t = at(q, b);
        Line {
            x: s.x,
            y: s.y,
            dx: t.x - s.x,
            dy: t.y - s.y,
        }
    }
}

// By the products at the sides of a box, none by x is above one by y.
fn leftward(l: f64, r: f64, d: f64, u: f64) -> bool
    ensures { result ≡ true → Ordered l r d u }
{
    l <= d && r <= d && l <= u && r <= u
}

impl Frame {
    // The box lies on one side of the line, by the cross products of its corners.
    pub fn is_beside(self, o: Line) -> bool
        ensures { result ≡ true → Beside self o }
    {
        let l = o.dy * (self.x0 - o.x);
        let r = o.dy * (self.x1 - o.x);
        let d = o.dx * (self.y0 - o.y);
        let u = o.dx * (self.y1 - o.y);
        leftward(l, r, d, u) || leftward(d, u, l, r)
    }
}
