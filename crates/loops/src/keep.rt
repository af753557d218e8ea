// A loop that has come to its places: whether some edge of it is not blocked, and its perimeter.
ghost use Rattle.std.specs.Prelude.{◌≡◌, not, List, [], ◌∷◌, ◌++◌, ℕ, ◌+◌, length};
ghost use Rattle.definition.specs.Plane.{Edge};
ghost use Rattle.definition.specs.Cells.{Mesh, has_edge_in};
ghost use Rattle.definition.specs.Loops.{loop_perimeter};
ghost use Rattle.cells.specs.Rep.{Room, Pts};
ghost use Rattle.blocked_edges.specs.Records.{IsEdge};
ghost use Rattle.edges.specs.Stored.{edge_on, Measured};
ghost use Rattle.edges.specs.Places.{Place, OnPlaces};
ghost use Rattle.loops.specs.Sift.{some_open, Blocked};
ghost use Rattle.loops.specs.Keep.{OpenLoop, CanMeasure, CanKeep, KeepTo};

use blocked_edges::is_blocked;
use cells::layout::{Layout, RECORDS};
use edges::{first_on, length_on, second_on};

// How many loops and edges there are so far.
#[derive(Clone, Copy)]
pub struct Sifted {
    pub loops: usize,
    pub edges: usize,
}

// The edge at place i is not blocked.
fn is_open_at(w: &[u32], lay: Layout, i: usize) -> bool
    requires { (bl : List Edge) × Place w.now lay.slots lay.points i × IsEdge lay.points (edge_on w.now lay.slots lay.points i) × Blocked w.now lay.slots lay.points bl }
    ensures { (bl : List Edge) → Blocked w.now lay.slots lay.points bl → result ≡ not (has_edge_in bl (edge_on w.now lay.slots lay.points i)) }
{
    let u = first_on(w, lay, i);
    let v = second_on(w, lay, i);
    let b = lay.refused_at();
    !is_blocked(w, b, RECORDS * lay.slots, lay.points, u, v)
}

// Some edge at the places from b to e is not blocked.
fn any_open(w: &[u32], lay: Layout, b: usize, e: usize) -> bool
    requires { (n : ℕ) × (bl : List Edge) × (l : List Edge) × OpenLoop w.now lay.slots lay.points b e n bl l }
    ensures { (n : ℕ) (bl l : List Edge) → OpenLoop w.now lay.slots lay.points b e n bl l → result ≡ some_open bl l }
{
    for i in b..e {
        if is_open_at(w, lay, i) {
            return true;
        }
    }
    false
}

// The perimeter of the loop at the places from b to e.
fn perimeter(w: &[u32], q: &[f64], lay: Layout, b: usize, e: usize) -> f64
    requires { (m : Mesh) × (l : List Edge) × Room w.now lay.slots lay.points × Pts q.now lay.points m × OnPlaces w.now lay.slots lay.points b e (length m.points) l }
    ensures { (m : Mesh) (l : List Edge) → Pts q.now lay.points m → OnPlaces w.now lay.slots lay.points b e (length m.points) l → result ≡ loop_perimeter m.points l }
{
    let mut sum = 0.0;
    for i in b..e {
        sum += length_on(w, q, lay, i);
    }
    sum
}

// The perimeter of loop j, at the places from b to e, is stored.
// That of the first loop is stored with the second, since one loop has no order.
fn measure(w: &[u32], q: &[f64], f: &mut [f64], lay: Layout, b: usize, e: usize, j: usize)
    requires { (m : Mesh) × (l : List Edge) × (ls : List (List Edge)) × CanMeasure w.now q.now f.old lay.slots lay.points b e j m l ls }
    ensures { (m : Mesh) (l : List Edge) (ls : List (List Edge)) → CanMeasure w.now q.now f.old lay.slots lay.points b e j m l ls → Measured f.new lay.slots lay.points (j + 1) m.points (ls ++ l ∷ []) }
{
    if j == 0 {
        return;
    }
    if j == 1 {
        f[0] = perimeter(w, q, lay, 0, b);
        f[1] = perimeter(w, q, lay, b, e);
        return;
    }
    f[j] = perimeter(w, q, lay, b, e);
}

// The loop from the places behind those of x up to place e is kept where some edge of it is not blocked.
pub fn keep(w: &[u32], q: &[f64], f: &mut [f64], lay: Layout, e: usize, x: Sifted) -> Sifted
    requires { (m : Mesh) × (bl : List Edge) × (l : List Edge) × (ls : List (List Edge)) × CanKeep w.now q.now f.old lay.slots lay.points x.edges e x.loops m bl l ls }
    ensures { (m : Mesh) (bl l : List Edge) (ls : List (List Edge)) → CanKeep w.now q.now f.old lay.slots lay.points x.edges e x.loops m bl l ls → KeepTo f.old f.new lay.slots lay.points x.edges e x.loops result.edges result.loops m.points bl l ls }
{
    let b = x.edges;
    let j = x.loops;
    if any_open(w, lay, b, e) {
        measure(w, q, f, lay, b, e, j);
        return Sifted {
            loops: j + 1,
            edges: e,
        };
    }
    x
}
