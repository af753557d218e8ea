// The locked edges that a region spares: it has none but sides of the quad.
ghost use Rattle.std.specs.Prelude.{◌≡◌, Bool, List};
ghost use Rattle.definition.specs.Lists.{all};
ghost use Rattle.definition.specs.Plane.{Edge};
ghost use Rattle.definition.specs.Cells.{Live, Mesh, tri, key, edges, new_quad};
ghost use Rattle.definition.specs.Region.{may_go, spares_locked};
ghost use Rattle.cells.specs.Rep.{Rep, TriIn};
ghost use Rattle.joints.specs.Table.{Locks};
ghost use Rattle.regions.specs.Listing.{Listed};

use crate::flood::is_side;
use crate::lists::listed;
use cells::find::node;
use cells::layout::Layout;
use joints::locked_between;

// The edge u-v is a side of the quad a b c d, or is not locked.
fn may_go(j: &[u32], u: usize, v: usize, a: usize, b: usize, c: usize, d: usize) -> bool
    requires { (k : Edge → Bool) × Locks j.now k }
    ensures { (m : Mesh) → Locks j.now m.locked → result ≡ may_go m (new_quad a b c d) (key u v) }
{
    if locked_between(j, u, v) {
        return is_side(u, v, a, b, c, d);
    }
    true
}

// Every edge of the triangle in slot i is a side of the quad a b c d, or is not locked.
fn spares_tri(
    w: &[u32],
    j: &[u32],
    lay: Layout,
    i: usize,
    a: usize,
    b: usize,
    c: usize,
    d: usize,
) -> bool
    requires { (m : Mesh) × Rep w.now lay.slots lay.points m × TriIn m i × Locks j.now m.locked }
    ensures { (m : Mesh) → Rep w.now lay.slots lay.points m → (t : TriIn m i) → Locks j.now m.locked → result ≡ all (may_go m (new_quad a b c d)) (edges (tri t.t)) }
{
    let x = node(w, lay.slots, i, 0);
    let y = node(w, lay.slots, i, 1);
    let z = node(w, lay.slots, i, 2);
    if !may_go(j, x, y, a, b, c, d) {
        return false;
    }
    if !may_go(j, y, z, a, b, c, d) {
        return false;
    }
    may_go(j, z, x, a, b, c, d)
}

// Every edge of the n listed triangles is a side of the quad a b c d, or is not locked.
// Kept (2): it asks of each triangle another question than `all_inside`, of the joints and not of the points.
// One function over the question is a closure whose clause at each call says all that the loop says here.
pub fn spares(
    w: &[u32],
    j: &[u32],
    lay: Layout,
    n: usize,
    a: usize,
    b: usize,
    c: usize,
    d: usize,
) -> bool
    requires { (m : Mesh) × (xs : List Live) × Listed w.now lay.slots lay.points n m xs × Locks j.now m.locked }
    ensures { (m : Mesh) (xs : List Live) → Listed w.now lay.slots lay.points n m xs → Locks j.now m.locked → result ≡ spares_locked m (new_quad a b c d) xs }
{
    for i in 0..n {
        if !spares_tri(w, j, lay, listed(w, lay, i), a, b, c, d) {
            return false;
        }
    }
    true
}
