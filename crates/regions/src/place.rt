// The quad in place of its region.
ghost use Rattle.std.specs.Prelude.{List};
ghost use Rattle.definition.specs.Cells.{Live, Mesh, remove_cells};
ghost use Rattle.meshes.specs.Changes.{CanPush, quad_of_nodes};
ghost use Rattle.regions.specs.Listing.{Listed};
ghost use Rattle.regions.specs.Fill.{Gone, Replaced};

use crate::lists::listed;
use cells::layout::Layout;
use meshes::store::{push_quad, remove_cell};

// The n listed cells go, in the list's order.
fn remove_listed(w: &mut [u32], lay: Layout, n: usize)
    requires { (m : Mesh) × (xs : List Live) × Listed w.old lay.slots lay.points n m xs }
    ensures { Gone w.old w.new lay.slots lay.points n remove_cells }
{
    for i in 0..n {
        let j = listed(w, lay, i);
        remove_cell(w, lay, j);
    }
}

// The quad a b c d takes the place of the n listed cells, in slot `used`, the next one.
pub fn place_quad(
    w: &mut [u32],
    lay: Layout,
    used: usize,
    n: usize,
    a: usize,
    b: usize,
    c: usize,
    d: usize,
)
    requires { (m : Mesh) × (xs : List Live) × Listed w.old lay.slots lay.points n m xs × CanPush m lay.slots used (quad_of_nodes a b c d) }
    ensures { Replaced w.old w.new lay.slots lay.points used n a b c d }
{
    remove_listed(w, lay, n);
    push_quad(w, lay, used, a, b, c, d);
}
