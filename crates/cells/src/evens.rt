// The note of the components: where it is 1, none of the triangles' components is odd.
ghost use Rattle.std.specs.Prelude.{◌≡◌, ◌≤◌, eqb, get_or, set};
ghost use Rattle.cells.specs.Layout.{even_at};
ghost use Rattle.cells.specs.Rep.{Room};

use crate::layout::Layout;

// Whether it is noted that no component is odd.
pub fn is_even(w: &[u32], lay: Layout) -> bool
    requires room { Room w.now lay.slots lay.points }
    requires le_s { 1 ≤ lay.slots }
    ensures { result ≡ eqb (get_or w.now (even_at lay.slots lay.points) 0) 1 }
{
    w[lay.even_at()] == 1
}

// Notes that no component is odd.
pub fn note_even(w: &mut [u32], lay: Layout)
    requires room { Room w.old lay.slots lay.points }
    requires le_s { 1 ≤ lay.slots }
    ensures { w.new ≡ set w.old (even_at lay.slots lay.points) 1 }
{
    w[lay.even_at()] = 1;
}

// Removes the note, so that nothing is known of the components.
pub fn forget_even(w: &mut [u32], lay: Layout)
    requires room { Room w.old lay.slots lay.points }
    requires le_s { 1 ≤ lay.slots }
    ensures { w.new ≡ set w.old (even_at lay.slots lay.points) 0 }
{
    w[lay.even_at()] = 0;
}
