// What a finished run hands back beside its quads.
#![tactic(auto)]

ghost use Rattle.std.specs.Prelude.{◌≡◌, ◌++◌, ◌*◌, ◌<◌, ◌≤◌, length, drop};
ghost use Rattle.definition.specs.Lists.{flat_map};
ghost use Rattle.definition.specs.Cells.{Mesh, triangles, tri_nodes};
ghost use Rattle.definition.specs.Call.{onto};
ghost use Rattle.cells.specs.Rep.{Rep};
ghost use Rattle.leftovers.specs.Wrote.{three, slot_tris, CanWrite, WroteSlot};

use cells::find::kind;
use cells::layout::{CORNERS, Layout};

// Numbers a triangle.
const TRIANGLE: usize = 3;

// A triangle's three numbers at the front of a part of the slice.
fn write_three(out: &mut [u32], a: u32, b: u32, c: u32)
    requires { 3 ≤ length out.old }
    ensures { out.new ≡ three a b c ++ drop 3 out.old }
{
    out[0] = a;
    out[1] = b;
    out[2] = c;
}

// The triangle in slot i, if the slot holds one, comes behind the n that stand in the slice; how many they are then.
fn write_slot(w: &[u32], out: &mut [u32], lay: Layout, i: usize, n: usize) -> usize
    requires rep { (m : Mesh) × Rep w.now lay.slots lay.points m }
    requires can_write { CanWrite out.old lay.slots i n }
    ensures { (m : Mesh) → Rep w.now lay.slots lay.points m → WroteSlot out.old out.new n result (slot_tris m i) }
{
    if kind(w, lay.slots, i) != 3 {
        return n;
    }
    let j = lay.slots + CORNERS * i;
    let at = TRIANGLE * n;
    write_three(&mut out[at..], w[j], w[j + 1], w[j + 2]);
    n + 1
}

// The live triangles, by ascending slot, come to the front of the slice; how many they are.
pub fn write_triangles(w: &[u32], out: &mut [u32], lay: Layout, used: usize) -> usize
    requires rep { (m : Mesh) × Rep w.now lay.slots lay.points m × (m.used ≡ used) }
    requires s_in_bounds { 3 * lay.slots ≤ length out.old }
    ensures { (m : Mesh) → Rep w.now lay.slots lay.points m → m.used ≡ used → (result ≡ length (triangles m)) × (out.new ≡ onto (flat_map tri_nodes (triangles m)) out.old) }
{
    let mut n = 0;
    for i in 0..used {
        n = write_slot(w, out, lay, i, n);
    }
    n
}
