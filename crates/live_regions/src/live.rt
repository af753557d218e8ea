// The triangles reached from a seed through those that have a node in reach of a point.
ghost use Rattle.std.specs.Prelude.{◌≡◌, not, List, [], ◌∷◌, ℕ, ◌*◌, ◌<◌, ◌≤◌, length};
ghost use Rattle.definition.specs.Floats.{◌≺◌};
ghost use Rattle.definition.specs.Call.{point_at};
ghost use Rattle.definition.specs.Plane.{flat, dist};
ghost use Rattle.definition.specs.Cells.{Live, Mesh, tri, cell_of};
ghost use Rattle.definition.specs.Candidates.{in_reach, seed_stack, live_region};
ghost use Rattle.cells.specs.Rep.{Rep, Pts, TriIn};
ghost use Rattle.plane.specs.Points.{Within};
ghost use Rattle.live_regions.specs.Stack.{Hold, PushTo, StepFrom, StepTo, Lent, LiveTo};
ghost use Rattle.live_regions.specs.Visit.{out_after, stack_after};

use crate::reach::Reach;
use crate::stack::{empty, list_one, push_around, push_one, take, top};
use cells::find::node;
use cells::layout::Layout;
use plane::points::{Spot, at};

// The node v is in reach.
fn near_node(q: &[f64], v: usize, o: Reach) -> bool
    requires { Within q.now v }
    ensures { result ≡ not (o.r ≺ dist (point_at q.now v) (flat o.at.x o.at.y)) }
{
    o.has(at(q, v))
}

// A node of the triangle in slot i is in reach.
fn is_near(w: &[u32], q: &[f64], lay: Layout, i: usize, o: Reach) -> bool
    requires rep { (m : Mesh) × Rep w.now lay.slots lay.points m × Pts q.now lay.points m × TriIn m i }
    requires i_lt_s { i < lay.slots }
    ensures { (m : Mesh) → Rep w.now lay.slots lay.points m → Pts q.now lay.points m → (t : TriIn m i) → result ≡ in_reach m (flat o.at.x o.at.y) o.r (tri t.t) }
{
    if near_node(q, node(w, lay.slots, i, 0), o) {
        return true;
    }
    if near_node(q, node(w, lay.slots, i, 1), o) {
        return true;
    }
    near_node(q, node(w, lay.slots, i, 2), o)
}

// The stack at the start: the seed's cell, if it is a triangle.
fn seed_one(w: &mut [u32], lay: Layout, i: usize)
    requires hold { (m : Mesh) × Hold w.old lay.slots lay.points m [] [] [] }
    requires i_lt_s { i < lay.slots }
    ensures { (m : Mesh) → Hold w.old lay.slots lay.points m [] [] [] → PushTo w.old w.new lay.slots lay.points m [] [] (seed_stack (cell_of m i)) }
{
    if w[i] == 3 {
        push_one(w, lay, i);
    }
}

// With so many triangles in reach their edges' owners are looked for around the better end.
const MANY: usize = 256;

// The slot i on top of the stack is visited: listed if it is in reach, and its neighbours pushed. The list has the answer's length then.
fn step(w: &mut [u32], q: &[f64], lay: Layout, n: usize, i: usize, o: Reach) -> usize
    requires { (m : Mesh) × (out : List Live) × (seen : List Live) × (st : List Live) × (e : Live) × Pts q.now lay.points m × StepFrom w.old lay.slots lay.points n i m out seen st e }
    ensures { (m : Mesh) (out seen st : List Live) (e : Live) → Pts q.now lay.points m → StepFrom w.old lay.slots lay.points n i m out seen st e → StepTo w.old w.new lay.slots lay.points result m (out_after (in_reach m (flat o.at.x o.at.y) o.r e.cell) out e) (e ∷ seen) (stack_after (in_reach m (flat o.at.x o.at.y) o.r e.cell) m seen st e) }
{
    let b = take(w, lay, i);
    if is_near(w, q, lay, i, o) {
        let f = push_around(w, lay, i, b, n >= MANY);
        list_one(w, lay, n, i, f);
        return n + 1;
    }
    n
}

// The live triangles reached from the seed's through those that have a node not farther than r from x y are listed, in the order of the visits; so many they are.
// A slot is visited once at most.
pub fn live_region(
    w: &mut [u32],
    q: &[f64],
    lay: Layout,
    used: usize,
    seed: usize,
    x: f64,
    y: f64,
    r: f64,
) -> usize
    requires lent { (m : Mesh) × Lent w.old q.now lay.slots lay.points used m }
    requires seed_lt_s { seed < lay.slots }
    ensures { (m : Mesh) → Lent w.old q.now lay.slots lay.points used m → LiveTo w.old w.new lay.slots lay.points result m (live_region m seed (flat x y) r) }
{
    let o = Reach::new(Spot { x, y }, r);
    empty(w, lay, used);
    seed_one(w, lay, seed);
    let mut n = 0;
    for _ in 0..lay.slots {
        let Some(j) = top(w, lay) else {
            break;
        };
        n = step(w, q, lay, n, j, o);
    }
    n
}
