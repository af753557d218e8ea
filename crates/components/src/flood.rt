// A component of the live triangles, flooded over shared edges.
ghost use Rattle.std.specs.Prelude.{List, ◌<◌, ◌≤◌};
ghost use Rattle.rings.specs.Rings.{Out};
ghost use Rattle.definition.specs.Cells.{Live, Mesh};
ghost use Rattle.cells.specs.Rep.{TriIn, slots};
ghost use Rattle.components.specs.Flood.{Marked, Flooding, Flooded, tri_live, Taken};

use crate::around::meet_tri;
use cells::find::kind;
use cells::layout::Layout;
use regions::lists::{append, listed, mark};

// A flood on its way: the edges of those listed below place `head` were crossed, and `count` are listed.
#[derive(Clone, Copy)]
pub struct Front {
    pub head: usize,
    pub count: usize,
}

// The flood goes on from place `from` of the list of k up to place `stop`, or to its end.
pub fn spread(w: &mut [u32], lay: Layout, k: usize, from: usize, stop: usize) -> Front
    requires flooding { (m : Mesh) × (xs : List Live) × (x : Live) × Flooding w.old w.old lay.slots lay.points k from m xs x }
    requires from_lt_k { (from < k) × (from < stop) }
    ensures flooding_2 { (m : Mesh) (xs : List Live) (x : Live) → Flooding w.old w.old lay.slots lay.points k from m xs x → Flooding w.old w.new lay.slots lay.points result.count result.head m xs x }
    ensures from_lt_head { from < result.head }
    ensures count_le_head { result.head < stop → result.count ≤ result.head }
{
    let mut count = k;
    for head in from..stop {
        if head >= count {
            return Front { head, count };
        }
        let j = listed(w, lay, head);
        count = meet_tri(w, lay, count, j);
    }
    Front { head: stop, count }
}

// The triangles that shared edges lead to from the one in slot i, without those listed,
// come to the end of the list of n.
fn flood(w: &mut [u32], lay: Layout, n: usize, i: usize) -> usize
    requires { (m : Mesh) × (xs : List Live) × Marked w.old lay.slots lay.points n m xs × TriIn m i × Out i (slots xs) }
    ensures { (m : Mesh) (xs : List Live) → Marked w.old lay.slots lay.points n m xs → (t : TriIn m i) → Out i (slots xs) → Flooded w.old w.new lay.slots lay.points result m xs (tri_live i t.t) }
{
    append(w, lay, n, i);
    let all = spread(w, lay, n + 1, n, lay.slots);
    all.count
}

// The component of the triangle in slot i comes to the end of the list of n.
// Nothing happens where the slot holds no triangle or one that is listed.
pub fn take_component(w: &mut [u32], lay: Layout, n: usize, i: usize) -> usize
    requires marked { (m : Mesh) × (xs : List Live) × Marked w.old lay.slots lay.points n m xs }
    requires i_lt_s { i < lay.slots }
    ensures { (m : Mesh) (xs : List Live) → Marked w.old lay.slots lay.points n m xs → Taken w.old w.new lay.slots lay.points n result i m xs }
{
    if mark(w, lay, i) != 0 {
        return n;
    }
    if kind(w, lay.slots, i) != 3 {
        return n;
    }
    flood(w, lay, n, i)
}
