// The marks of slots.
ghost use Rattle.std.specs.Prelude.{◌≡◌, List};
ghost use Rattle.definition.specs.Cells.{Live, Mesh};
ghost use Rattle.regions.specs.Listing.{Listed};
ghost use Rattle.components.specs.Flood.{MarkedTo};

use cells::layout::Layout;
use regions::lists::{append, clear_marks, listed};

// Of the `used` slots given out those of the n listed cells are marked, and no others.
pub fn mark_listed(w: &mut [u32], lay: Layout, used: usize, n: usize)
    requires { (m : Mesh) × (xs : List Live) × Listed w.old lay.slots lay.points n m xs × (m.used ≡ used) }
    ensures { (m : Mesh) (xs : List Live) → Listed w.old lay.slots lay.points n m xs → m.used ≡ used → MarkedTo w.old w.new lay.slots lay.points n m xs }
{
    clear_marks(w, lay, used);
    for i in 0..n {
        let j = listed(w, lay, i);
        append(w, lay, i, j);
    }
}
