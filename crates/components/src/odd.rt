// The odd test: the components that are left without a region.
ghost use Rattle.std.specs.Prelude.{◌≡◌, List};
ghost use Rattle.definition.specs.Cells.{Live, Mesh, live_tris};
ghost use Rattle.regions.specs.Listing.{Listed};
ghost use Rattle.components.specs.Odd.{OddTo};

use crate::flood::take_component;
use crate::marks::mark_listed;
use crate::near::leaves_odd_near;
use cells::evens::is_even;
use cells::layout::Layout;

// Without the n listed cells some component, anywhere in the mesh, would be odd: all are flooded.
fn leaves_odd_anywhere(w: &mut [u32], lay: Layout, used: usize, n: usize) -> bool
    requires { (m : Mesh) × (xs : List Live) × Listed w.old lay.slots lay.points n m xs × (m.used ≡ used) }
    ensures { (m : Mesh) (xs : List Live) → Listed w.old lay.slots lay.points n m xs → m.used ≡ used → OddTo w.old w.new lay.slots lay.points n m xs result }
{
    mark_listed(w, lay, used, n);
    let mut k = n;
    for i in 0..used {
        let next = take_component(w, lay, k, i);
        if (next - k) % 2 != 0 {
            return true;
        }
        k = next;
    }
    false
}

// Without the n listed cells some component, anywhere in the mesh, would be odd.
// Where an odd number of triangles is left, their number tells.
// Where it is noted that no component of the mesh is odd, the triangles around the listed cells tell.
// Otherwise all components are flooded.
pub fn leaves_odd(w: &mut [u32], lay: Layout, used: usize, live: usize, n: usize) -> bool
    requires { (m : Mesh) × (xs : List Live) × Listed w.old lay.slots lay.points n m xs × (m.used ≡ used) × (live ≡ live_tris m) }
    ensures { (m : Mesh) (xs : List Live) → Listed w.old lay.slots lay.points n m xs → m.used ≡ used → live ≡ live_tris m → OddTo w.old w.new lay.slots lay.points n m xs result }
{
    if (live - n) % 2 != 0 {
        return true;
    }
    if is_even(w, lay) {
        return leaves_odd_near(w, lay, used, n);
    }
    leaves_odd_anywhere(w, lay, used, n)
}
