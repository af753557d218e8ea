// The flood of a region: first in, first out, stopping at the quad's sides.
ghost use Rattle.std.specs.Prelude.{◌≡◌, ◌&&◌, List, [], ◌∷◌, ◌++◌, ◌<◌, eqb};
ghost use Rattle.definition.specs.Cells.{Live, Mesh, key, owners, new_quad, quad_edges, has_edge_in};
ghost use Rattle.definition.specs.Region.{reach, reach_all, across, flood};
ghost use Rattle.cells.specs.Rep.{Rep, TriIn};
ghost use Rattle.cells.specs.Walk.{IsEdge};
ghost use Rattle.cells.proofs.Edges.{joins};
ghost use Rattle.regions.specs.Listing.{State, Seen, Reached, CanMark};
ghost use Rattle.regions.specs.Flood.{beyond, Seeded, tri_live};

use crate::lists::{append, clear_marks, listed, mark};
use cells::find::{first_owner, kind, next_owner, node};
use cells::layout::Layout;

// The cell in slot j is reached: it comes to the end of the list of n, unless it is listed;
// none where it is no triangle.
fn visit_one(w: &mut [u32], lay: Layout, n: usize, j: usize) -> Option<usize>
    requires { (m : Mesh) × (xs : List Live) × (x : Live) × Seen w.old lay.slots lay.points n j m xs x }
    ensures { (m : Mesh) (done todo : List Live) (x : Live) → Seen w.old lay.slots lay.points n j m (done ++ todo) x → Reached w.old w.new lay.slots lay.points m done (reach done todo x) result }
{
    if mark(w, lay, j) != 0 {
        return Some(n);
    }
    if kind(w, lay.slots, j) != 3 {
        return None;
    }
    append(w, lay, n, j);
    Some(n + 1)
}

// The owners of u-v are reached one after the other.
fn visit_edge(w: &mut [u32], lay: Layout, n: usize, u: usize, v: usize) -> Option<usize>
    requires state { (m : Mesh) × (xs : List Live) × State w.old lay.slots lay.points n m xs }
    requires edge { IsEdge lay.points u v }
    ensures { (m : Mesh) (done todo : List Live) → State w.old lay.slots lay.points n m (done ++ todo) → Reached w.old w.new lay.slots lay.points m done (reach_all done todo (owners m (key u v))) result }
{
    let mut k = n;
    let mut c = first_owner(w, lay, u, v);
    while c < 4 * lay.slots {
        k = visit_one(w, lay, k, c / 4)?;
        c = next_owner(w, lay, u, v, c);
    }
    Some(k)
}

// The pair a b is the pair u v.
fn is_pair(a: usize, b: usize, u: usize, v: usize) -> bool
    ensures { result ≡ (eqb a u && eqb b v) }
{
    a == u && b == v
}

// The edge a-b is the edge u-v.
// Kept (4): an edge has no direction, so that no derived equality of two pairs is this one.
fn same_edge(u: usize, v: usize, a: usize, b: usize) -> bool
    ensures { result ≡ joins u v a b }
{
    is_pair(a, b, u, v) || is_pair(a, b, v, u)
}

// The edge u-v is a side of the quad a b c d.
pub fn is_side(u: usize, v: usize, a: usize, b: usize, c: usize, d: usize) -> bool
    ensures { result ≡ has_edge_in (quad_edges (new_quad a b c d)) (key u v) }
{
    if same_edge(u, v, a, b) {
        return true;
    }
    if same_edge(u, v, b, c) {
        return true;
    }
    if same_edge(u, v, c, d) {
        return true;
    }
    same_edge(u, v, d, a)
}

// The owners of u-v are reached, unless that is a side of the quad a b c d.
fn visit_side(
    w: &mut [u32],
    lay: Layout,
    n: usize,
    u: usize,
    v: usize,
    a: usize,
    b: usize,
    c: usize,
    d: usize,
) -> Option<usize>
    requires state { (m : Mesh) × (xs : List Live) × State w.old lay.slots lay.points n m xs }
    requires edge { IsEdge lay.points u v }
    ensures { (m : Mesh) (done todo : List Live) → State w.old lay.slots lay.points n m (done ++ todo) → Reached w.old w.new lay.slots lay.points m done (reach_all done todo (beyond m (quad_edges (new_quad a b c d)) (key u v))) result }
{
    if is_side(u, v, a, b, c, d) {
        return Some(n);
    }
    visit_edge(w, lay, n, u, v)
}

// The cells across the edges of the triangle in slot i that are no sides are reached, edge after edge.
fn visit_tri(
    w: &mut [u32],
    lay: Layout,
    n: usize,
    i: usize,
    a: usize,
    b: usize,
    c: usize,
    d: usize,
) -> Option<usize>
    requires { (m : Mesh) × (xs : List Live) × State w.old lay.slots lay.points n m xs × TriIn m i }
    ensures { (m : Mesh) (done todo : List Live) → State w.old lay.slots lay.points n m (done ++ todo) → (t : TriIn m i) → Reached w.old w.new lay.slots lay.points m done (reach_all done todo (across m (quad_edges (new_quad a b c d)) (tri_live i t.t))) result }
{
    let x = node(w, lay.slots, i, 0);
    let y = node(w, lay.slots, i, 1);
    let z = node(w, lay.slots, i, 2);
    let k = visit_side(w, lay, n, x, y, a, b, c, d)?;
    let l = visit_side(w, lay, k, y, z, a, b, c, d)?;
    visit_side(w, lay, l, z, x, a, b, c, d)
}

// The triangle in slot i alone is listed, where `used` slots were given out.
fn start(w: &mut [u32], lay: Layout, used: usize, i: usize)
    requires can_mark { CanMark w.old lay.slots lay.points used }
    requires i_lt_s { i < lay.slots }
    ensures { Seeded w.old w.new lay.slots lay.points used i }
{
    clear_marks(w, lay, used);
    append(w, lay, 0, i);
}

// The triangles reached from the one in slot i without crossing a side of the quad are listed.
// The answer is their number; none where a cell that was reached is no triangle.
pub fn flood(
    w: &mut [u32],
    lay: Layout,
    used: usize,
    i: usize,
    a: usize,
    b: usize,
    c: usize,
    d: usize,
) -> Option<usize>
    requires { (m : Mesh) × Rep w.old lay.slots lay.points m × TriIn m i × (m.used ≡ used) }
    ensures { (m : Mesh) → Rep w.old lay.slots lay.points m → (t : TriIn m i) → m.used ≡ used → Reached w.old w.new lay.slots lay.points m [] (flood m.used m (quad_edges (new_quad a b c d)) [] (tri_live i t.t ∷ [])) result }
{
    start(w, lay, used, i);
    let mut n = 1;
    let mut head = 0;
    // Kept (3): the list grows while the loop goes along it, so that no range ends where it does.
    while head < n {
        let j = listed(w, lay, head);
        n = visit_tri(w, lay, n, j, a, b, c, d)?;
        head += 1;
    }
    Some(n)
}
