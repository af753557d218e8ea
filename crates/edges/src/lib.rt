// The front's edges and loops in the lent memory: the edge at a place of the loops' order, and its length.
#![tactic(auto)]

ghost use Rattle.std.specs.Prelude.{◌≡◌, ◌+◌};
ghost use Rattle.std.proofs.Math.ListN as listn;
ghost use Rattle.definition.specs.Plane.{edge_length};
ghost use Rattle.definition.specs.Cells.{Mesh};
ghost use Rattle.cells.specs.Layout.{order_at};
ghost use Rattle.cells.specs.Rep.{Pts};
ghost use Rattle.edges.specs.Stored.{edge_on};
ghost use Rattle.edges.specs.Places.{Place, Known};

use cells::layout::Layout;
use plane::vectors::length;
use words::wide;

// The number of the edge at place i.
fn number_on(w: &[u32], lay: Layout, i: usize) -> usize
    requires { Place w.now lay.slots lay.points i }
    ensures { result ≡ listn.get_or w.now (order_at lay.slots lay.points + i) 0 }
{
    let o = lay.order_at();
    wide(w[o + i])
}

// The first node of the edge at place i.
pub fn first_on(w: &[u32], lay: Layout, i: usize) -> usize
    requires { Place w.now lay.slots lay.points i }
    ensures { result ≡ (edge_on w.now lay.slots lay.points i).0 }
{
    let u = lay.front_u_at();
    let n = number_on(w, lay, i);
    wide(w[u + n])
}

// The second node of the edge at place i.
// Kept (2): it reads another area than `first_on`, three lines in each.
// One function of the area would leave both beside it, since the clauses name the first node and the second.
pub fn second_on(w: &[u32], lay: Layout, i: usize) -> usize
    requires { Place w.now lay.slots lay.points i }
    ensures { result ≡ (edge_on w.now lay.slots lay.points i).1 }
{
    let v = lay.front_v_at();
    let n = number_on(w, lay, i);
    wide(w[v + n])
}

// The length of the edge at place i.
pub fn length_on(w: &[u32], q: &[f64], lay: Layout, i: usize) -> f64
    requires { (m : Mesh) × Place w.now lay.slots lay.points i × Pts q.now lay.points m × Known (listn.length m.points) (edge_on w.now lay.slots lay.points i) }
    ensures { (m : Mesh) → Pts q.now lay.points m → Known (listn.length m.points) (edge_on w.now lay.slots lay.points i) → result ≡ edge_length m.points (edge_on w.now lay.slots lay.points i) }
{
    let u = first_on(w, lay, i);
    let v = second_on(w, lay, i);
    length(q, u, v)
}
