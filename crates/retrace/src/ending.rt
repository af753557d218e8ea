// What stands after the entries of a replay: its answer and its lists.
ghost use Rattle.std.specs.Prelude.{List, ℕ, ◌*◌, ◌≤◌, length, Float};
ghost use Rattle.definition.specs.Cells.{Mesh};
ghost use Rattle.retrace.specs.Plays.{state, Plays};
ghost use Rattle.retrace.specs.Ending.{FinishTo};

use crate::Playing;
use cells::layout::Layout;
use components::sizes::component_sizes;
use leftovers::write_triangles;

// What a replay of a whole trace answers: the lengths of its lists.
#[derive(Clone, Copy)]
pub struct Replayed {
    pub quads: usize,
    pub triangles: usize,
    pub points: usize,
    pub components: usize,
}

// The triangles that are left and the sizes of their components come to the front of their slices.
// The answer is that of the whole replay.
pub fn finish(
    triangles_out: &mut [u32],
    components: &mut [u32],
    work: &mut [u32],
    lay: Layout,
    g: Playing,
) -> Replayed
    requires by_index { (q : List Float) × (quads : List ℕ) × (q₀ : List Float) × (old : List ℕ) × (m : Mesh) × Plays work.old q quads lay.slots lay.points q₀ old (state g) m }
    requires slots_in_bounds { (3 * lay.slots ≤ length triangles_out.old) × (lay.slots ≤ length components.old) }
    ensures { (q : List Float) (quads : List ℕ) (q₀ : List Float) (old : List ℕ) (m : Mesh) → Plays work.old q quads lay.slots lay.points q₀ old (state g) m → FinishTo triangles_out.old triangles_out.new components.old components.new m result }
{
    let left = write_triangles(work, triangles_out, lay, g.used);
    let sizes = component_sizes(work, components, lay, g.used);
    Replayed {
        quads: g.quads,
        triangles: left,
        points: g.points,
        components: sizes,
    }
}
