// A triangle is split at a new point.
ghost use Rattle.std.specs.Prelude.{◌≡◌, ◌+◌, ◌*◌, ◌<◌, ◌≤◌, length};
ghost use Rattle.definition.specs.Plane.{Node};
ghost use Rattle.definition.specs.Cells.{Mesh};
ghost use Rattle.definition.specs.Insertion.{split_triangle};
ghost use Rattle.cells.specs.Rep.{Rep};
ghost use Rattle.meshes.specs.Changes.{Turns};
ghost use Rattle.flips.specs.Nodes.{tri_read};
ghost use Rattle.flips.specs.Split.{with_spot, HasRoom, CanSplit, Splits};

use cells::find::node;
use cells::layout::Layout;
use meshes::store::{push_tri, set_tri};

// Point n of the slice becomes x, y with z 0.0.
fn put_point(q: &mut [f64], n: usize, x: f64, y: f64)
    requires { 3 * n + 2 < length q.old }
    ensures { q.new ≡ with_spot q.old n x y }
{
    q[3 * n] = x;
    q[3 * n + 1] = y;
    q[3 * n + 2] = 0.0;
}

// The triangle in slot i becomes three around the new node n: the first keeps the slot, the others take the next two.
fn split_slot(w: &mut [u32], lay: Layout, i: usize, used: usize, n: usize)
    requires rep { (m : Mesh) × Rep w.old lay.slots lay.points m × CanSplit m i used n }
    requires has_room { HasRoom lay.slots lay.points used n }
    ensures { (z : Node) → Turns w.old w.new lay.slots lay.points (λ m. CanSplit m i used n) (λ m. split_triangle m i (tri_read w.old lay.slots i) z) }
{
    let a = node(w, lay.slots, i, 0);
    let b = node(w, lay.slots, i, 1);
    let c = node(w, lay.slots, i, 2);
    set_tri(w, lay, i, a, b, n);
    push_tri(w, lay, used, b, c, n);
    push_tri(w, lay, used + 1, c, a, n);
}

// The triangle in slot i is split at the new point x, y, which becomes point n.
pub fn split_triangle(
    w: &mut [u32],
    q: &mut [f64],
    lay: Layout,
    i: usize,
    used: usize,
    n: usize,
    x: f64,
    y: f64,
)
    requires rep { (m : Mesh) × Rep w.old lay.slots lay.points m × CanSplit m i used n }
    requires has_room { HasRoom lay.slots lay.points used n }
    requires p_in_bounds { 3 * lay.points ≤ length q.old }
    ensures { Splits w.old w.new q.old q.new lay.slots lay.points i used n x y }
{
    put_point(q, n, x, y);
    split_slot(w, lay, i, used, n);
}
