// The region of a quad: the triangles that the flood reaches, if they fill the quad and spare the locked edges.
ghost use Rattle.std.specs.Prelude.{◌≡◌, List, []};
ghost use Rattle.definition.specs.Lists.{all};
ghost use Rattle.definition.specs.Cells.{Live, Mesh, tri, new_quad};
ghost use Rattle.definition.specs.Region.{area_of, region_area, cell_inside, area_agrees, region};
ghost use Rattle.joints.specs.Table.{Locks};
ghost use Rattle.regions.specs.Listing.{Reached};
ghost use Rattle.regions.specs.Flood.{tri_live};
ghost use Rattle.regions.specs.Fill.{Known, Shown, Drawn};

use crate::flood::flood;
use crate::lists::listed;
use crate::spares::spares;
use cells::find::node;
use cells::layout::Layout;
use plane::area::{quad_area, tri_area};
use plane::floats::{abs, greater};
use plane::sides::inside_quad;

// A region's area may be off by this times the greater of the quad's area and 1.
pub const AREA_SLACK: f64 = 1e-9;

// Every node of the triangle in slot j lies inside the quad a b c d.
fn tri_inside(
    w: &[u32],
    q: &[f64],
    lay: Layout,
    j: usize,
    a: usize,
    b: usize,
    c: usize,
    d: usize,
) -> bool
    requires { (m : Mesh) × Drawn w.now q.now lay.slots lay.points j m × Known m a b c d }
    ensures { (m : Mesh) (h : Drawn w.now q.now lay.slots lay.points j m) → Known m a b c d → result ≡ cell_inside m (new_quad a b c d) (tri_live j h.tri.t) }
{
    let x = node(w, lay.slots, j, 0);
    let y = node(w, lay.slots, j, 1);
    let z = node(w, lay.slots, j, 2);
    if !inside_quad(q, a, b, c, d, x) {
        return false;
    }
    if !inside_quad(q, a, b, c, d, y) {
        return false;
    }
    inside_quad(q, a, b, c, d, z)
}

// Every node of the n listed triangles lies inside the quad a b c d.
fn all_inside(
    w: &[u32],
    q: &[f64],
    lay: Layout,
    n: usize,
    a: usize,
    b: usize,
    c: usize,
    d: usize,
) -> bool
    requires { (m : Mesh) × (xs : List Live) × Shown w.now q.now lay.slots lay.points n m xs × Known m a b c d }
    ensures { (m : Mesh) (xs : List Live) → Shown w.now q.now lay.slots lay.points n m xs → Known m a b c d → result ≡ all (cell_inside m (new_quad a b c d)) xs }
{
    for i in 0..n {
        if !tri_inside(w, q, lay, listed(w, lay, i), a, b, c, d) {
            return false;
        }
    }
    true
}

// The area of the triangle in slot j.
fn area_in(w: &[u32], q: &[f64], lay: Layout, j: usize) -> f64
    requires { (m : Mesh) × Drawn w.now q.now lay.slots lay.points j m }
    ensures { (m : Mesh) (h : Drawn w.now q.now lay.slots lay.points j m) → result ≡ area_of m (tri h.tri.t) }
{
    tri_area(
        q,
        node(w, lay.slots, j, 0),
        node(w, lay.slots, j, 1),
        node(w, lay.slots, j, 2),
    )
}

// The areas of the n listed triangles, summed in the list's order.
fn region_area(w: &[u32], q: &[f64], lay: Layout, n: usize) -> f64
    requires { (m : Mesh) × (xs : List Live) × Shown w.now q.now lay.slots lay.points n m xs }
    ensures { (m : Mesh) (xs : List Live) → Shown w.now q.now lay.slots lay.points n m xs → result ≡ region_area m xs }
{
    let mut sum: f64 = 0.0;
    for i in 0..n {
        sum += area_in(w, q, lay, listed(w, lay, i));
    }
    sum
}

// The areas of the n listed triangles add up to the area of the quad a b c d.
fn area_agrees(
    w: &[u32],
    q: &[f64],
    lay: Layout,
    n: usize,
    a: usize,
    b: usize,
    c: usize,
    d: usize,
) -> bool
    requires { (m : Mesh) × (xs : List Live) × Shown w.now q.now lay.slots lay.points n m xs × Known m a b c d }
    ensures { (m : Mesh) (xs : List Live) → Shown w.now q.now lay.slots lay.points n m xs → Known m a b c d → result ≡ area_agrees m (new_quad a b c d) xs }
{
    let expected = abs(quad_area(q, a, b, c, d));
    let sum = region_area(w, q, lay, n);
    !(abs(sum - expected) > AREA_SLACK * greater(expected, 1.0))
}

// The region of the quad a b c d around the triangle in slot `seed`.
// Its cells are listed, and their number is the answer; none where it is refused.
pub fn region(
    w: &mut [u32],
    q: &[f64],
    j: &[u32],
    lay: Layout,
    used: usize,
    seed: usize,
    a: usize,
    b: usize,
    c: usize,
    d: usize,
) -> Option<usize>
    requires { (m : Mesh) × Drawn w.old q.now lay.slots lay.points seed m × Known m a b c d × Locks j.now m.locked × (m.used ≡ used) }
    ensures { (m : Mesh) → Drawn w.old q.now lay.slots lay.points seed m → Known m a b c d → Locks j.now m.locked → m.used ≡ used → Reached w.old w.new lay.slots lay.points m [] (region m seed (new_quad a b c d)) result }
{
    let n = flood(w, lay, used, seed, a, b, c, d)?;
    if !all_inside(w, q, lay, n, a, b, c, d) {
        return None;
    }
    if !area_agrees(w, q, lay, n, a, b, c, d) {
        return None;
    }
    if !spares(w, j, lay, n, a, b, c, d) {
        return None;
    }
    Some(n)
}
