// The odd test where no component of the mesh is odd: a look around the region is enough.
ghost use Rattle.std.specs.Prelude.{◌≡◌, false, List, ℕ, ◌%◌};
ghost use Rattle.rings.specs.Rings.{Out};
ghost use Rattle.definition.specs.Cells.{Live, Mesh, tris_of};
ghost use Rattle.definition.specs.Components.{odd_one};
ghost use Rattle.cells.specs.Rep.{TriIn, slots};
ghost use Rattle.regions.specs.Listing.{Listed};
ghost use Rattle.components.specs.Flood.{tri_live};
ghost use Rattle.components.specs.Seek.{Looked};
ghost use Rattle.components.specs.Near.{BesideOne, Around, Pieced};
ghost use Rattle.components.specs.Odd.{OddTo};

use crate::around::look_tri;
use crate::flood::spread;
use crate::marks::mark_listed;
use cells::layout::Layout;
use regions::lists::{append, listed};

// How many triangles of a piece are crossed before the first look around the region.
const STRETCH: usize = 8;

// A piece taken: how many are listed then, and the slot that the last look around the region found.
#[derive(Clone, Copy)]
struct Taken {
    count: usize,
    beside: Option<usize>,
}

// The slot of a triangle that shares an edge with one of the first n listed and is not listed, where there is one.
fn beside(w: &[u32], lay: Layout, n: usize) -> Option<usize>
    requires { (k : ℕ) × (m : Mesh) × (region : List Live) × (xs : List Live) × Around w.now lay.slots lay.points k n m region xs }
    ensures { (k : ℕ) (m : Mesh) (region xs : List Live) → Around w.now lay.slots lay.points k n m region xs → Looked lay.slots result m xs (BesideOne region) }
{
    for i in 0..n {
        let found = look_tri(w, lay, listed(w, lay, i));
        if found.is_some() {
            return found;
        }
    }
    None
}

// The piece of the triangle in slot i comes to the end of the list of k: all of it,
// or so much that no triangle beside the first n is left.
fn take_piece(w: &mut [u32], lay: Layout, n: usize, k: usize, i: usize) -> Taken
    requires { (m : Mesh) × (region : List Live) × (xs : List Live) × Around w.old lay.slots lay.points k n m region xs × TriIn m i × Out i (slots xs) }
    ensures { (m : Mesh) (region xs : List Live) → Around w.old lay.slots lay.points k n m region xs → (t : TriIn m i) → Out i (slots xs) → Pieced w.old w.new lay.slots lay.points result.count result.beside m region xs (tri_live i t.t) }
{
    append(w, lay, k, i);
    let first = spread(w, lay, k + 1, k, k + STRETCH);
    let mut head = first.head;
    let mut count = first.count;
    let mut found = beside(w, lay, n);
    while found.is_some() {
        if head >= count {
            return Taken {
                count,
                beside: found,
            };
        }
        let on = spread(w, lay, count, head, head + (head - k));
        head = on.head;
        count = on.count;
        found = beside(w, lay, n);
    }
    Taken {
        count,
        beside: found,
    }
}

// Without the n listed cells, an even number, some component would be odd, where none of the mesh is.
pub fn leaves_odd_near(w: &mut [u32], lay: Layout, used: usize, n: usize) -> bool
    requires listed { (m : Mesh) × (xs : List Live) × Listed w.old lay.slots lay.points n m xs × (odd_one (tris_of m.live) ≡ false) × (m.used ≡ used) }
    requires n_value { n % 2 ≡ 0 }
    ensures { (m : Mesh) (xs : List Live) → Listed w.old lay.slots lay.points n m xs → odd_one (tris_of m.live) ≡ false → m.used ≡ used → OddTo w.old w.new lay.slots lay.points n m xs result }
{
    mark_listed(w, lay, used, n);
    let mut k = n;
    let mut found = beside(w, lay, n);
    while let Some(t) = found {
        let took = take_piece(w, lay, n, k, t);
        if took.beside.is_none() {
            return false;
        }
        if (took.count - k) % 2 != 0 {
            return true;
        }
        k = took.count;
        found = took.beside;
    }
    false
}
