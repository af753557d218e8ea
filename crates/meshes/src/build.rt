// The mesh of the given triangles.
ghost use Rattle.cells.specs.Rep.{Room};
ghost use Rattle.meshes.specs.Build.{CanBuild, Builds, Empties};

use crate::store::push_tri;
use cells::clear::{clear_first, clear_range};
use cells::layout::{BEFORE, CORNERS, Layout};
use rings::open;
use words::wide;

// Memory of any content becomes that of the mesh with no cell.
// What is read before it is written is cleared: the kinds, the notes of the points, and that of the components.
fn empty(w: &mut [u32], lay: Layout)
    requires { Room w.old lay.slots lay.points }
    ensures { Empties w.old w.new lay.slots lay.points }
{
    clear_first(w, lay.slots);
    clear_range(w, lay.notes_at(), lay.points);
    clear_range(w, lay.even_at(), lay.slots);
    open(
        w,
        BEFORE * lay.slots,
        CORNERS * lay.slots + lay.points,
        CORNERS * lay.slots,
    );
}

// Memory of any content becomes that of the mesh of the first n triangles of the slice, over the g given points.
pub fn build(w: &mut [u32], triangles: &[u32], lay: Layout, n: usize, g: usize)
    requires { CanBuild w.old lay.slots lay.points triangles.now n g }
    ensures { Builds w.old w.new lay.slots lay.points triangles.now n g }
{
    empty(w, lay);
    for i in 0..n {
        let a = wide(triangles[3 * i]);
        let b = wide(triangles[3 * i + 1]);
        let c = wide(triangles[3 * i + 2]);
        push_tri(w, lay, i, a, b, c);
    }
}
