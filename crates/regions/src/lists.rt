// The list of slots in hand and the marks of slots.
ghost use Rattle.std.specs.Prelude.{◌≡◌, ◌+◌, get_or, set};
ghost use Rattle.cells.specs.Layout.{marks_at, list_at};
ghost use Rattle.regions.specs.Listing.{CanList, CanMark, Cleared};

use cells::clear::clear_range;
use cells::layout::Layout;
use words::wide;

// The slot in place i of the list.
pub fn listed(w: &[u32], lay: Layout, i: usize) -> usize
    requires { CanList w.now lay.slots lay.points i }
    ensures { result ≡ get_or w.now (list_at lay.slots lay.points + i) 0 }
{
    wide(w[lay.list_at() + i])
}

// The mark of slot j: 0 where it has none.
// Kept (1): alike by chance, the answer is the word itself, as the clause says, and no number for a kind.
pub fn mark(w: &[u32], lay: Layout, j: usize) -> usize
    requires { CanList w.now lay.slots lay.points j }
    ensures { result ≡ get_or w.now (marks_at lay.slots lay.points + j) 0 }
{
    wide(w[lay.marks_at() + j])
}

// Slot j comes to place n of the list and is marked.
pub fn append(w: &mut [u32], lay: Layout, n: usize, j: usize)
    requires can_list { CanList w.old lay.slots lay.points n }
    requires can_list_2 { CanList w.old lay.slots lay.points j }
    ensures { w.new ≡ set (set w.old (marks_at lay.slots lay.points + j) 1) (list_at lay.slots lay.points + n) j }
{
    w[lay.marks_at() + j] = 1;
    w[lay.list_at() + n] = j as u32;
}

// None of the first n slots is marked.
pub fn clear_marks(w: &mut [u32], lay: Layout, n: usize)
    requires { CanMark w.old lay.slots lay.points n }
    ensures { Cleared w.old w.new lay.slots lay.points n }
{
    let from = lay.marks_at();
    clear_range(w, from, n);
}
