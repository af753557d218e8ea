// A split done again.
ghost use Rattle.std.specs.Prelude.{◌≡◌, List, ℕ, ◌+◌, ◌^◌, ◌<◌, Float};
ghost use Rattle.definition.specs.Numbers.{Settings};
ghost use Rattle.definition.specs.Plane.{flat};
ghost use Rattle.definition.specs.Cells.{Mesh, was_split};
ghost use Rattle.definition.specs.Replay.{redo};
ghost use Rattle.rules.specs.Settings.{Suits};
ghost use Rattle.retrace.specs.Plays.{state, played, Plays, Small, EntryTo};

use crate::Playing;
use cells::layout::Layout;
use flips::split::split_triangle;
use insertion::holder::holds;
use refusals::Refusal;
use traces::SPLIT;

// The triangle in slot i is split at the point x y: 12 where it does not hold it, then 8 and 9.
pub fn split_at(
    points: &mut [f64],
    work: &mut [u32],
    lay: Layout,
    g: Playing,
    i: usize,
    x: f64,
    y: f64,
) -> Result<Playing, Refusal>
    requires by_index { (quads : List ℕ) × (q₀ : List Float) × (old : List ℕ) × (m : Mesh) × Plays work.old points.old quads lay.slots lay.points q₀ old (state g) m × Small quads lay.slots lay.points }
    requires at_bound { g.at + 6 < 2 ^ 64 }
    ensures { (quads : List ℕ) (q₀ : List Float) (old : List ℕ) (m : Mesh) (t : Settings) → Suits t lay.slots lay.points → Plays work.old points.old quads lay.slots lay.points q₀ old (state g) m → EntryTo work.old work.new points.old points.new quads quads lay.slots lay.points q₀ old (state g) 6 (redo t m (was_split i (flat x y))) (played result) }
{
    if i >= lay.slots {
        return Err(Refusal::BadTrace);
    }
    if !holds(work, points, lay, i, x, y) {
        return Err(Refusal::BadTrace);
    }
    if g.points >= lay.points {
        return Err(Refusal::NoPoint);
    }
    if g.used + 2 > lay.slots {
        return Err(Refusal::NoSlots);
    }
    split_triangle(work, points, lay, i, g.used, g.points, x, y);
    Ok(Playing {
        at: g.at + SPLIT,
        used: g.used + 2,
        points: g.points + 1,
        quads: g.quads,
        odd: g.odd,
    })
}
