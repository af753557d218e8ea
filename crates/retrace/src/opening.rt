// What stands before the entries of a replay: the tests that open it, and the mesh of the given triangles.
ghost use Rattle.std.specs.Prelude.{◌≡◌, [], length};
ghost use Rattle.definition.specs.Call.{Lent};
ghost use Rattle.refusals.specs.Numbers.{number_or_0};
ghost use Rattle.refusals.specs.Stated.{Lends};
ghost use Rattle.retrace.specs.Plays.{state};
ghost use Rattle.retrace.specs.Replaying.{told_of};
ghost use Rattle.retrace.specs.Opening.{opening_number, CanBegin, Begins};

use crate::{Playing, Told};
use cells::layout::Layout;
use meshes::build::build;
use refusals::{Refusal, Room, number_or_0, refusal, standard};

// The first refusal whose condition holds, if one does.
// `lent` is the length of the trace's slice, `n` has those of the slices that are not read.
pub fn opening(
    points: &[f64],
    triangles: &[u32],
    lent: usize,
    told: Told,
    n: Room,
) -> Result<(), Refusal>
    ensures { (l : Lent) → Lends l points.now triangles.now [] n → length l.trace ≡ lent → number_or_0 result ≡ opening_number (told_of told) l }
{
    let stated = standard(told.given, told.capacity, told.count, told.slots, 0.0, 0);
    let none = [0u32; 0];
    let found = refusal(points, triangles, &none, stated, n);
    let k = number_or_0(found);
    if k == 1 {
        return found;
    }
    if lent < told.words {
        return Err(Refusal::TooShort);
    }
    found
}

// The mesh of the given triangles; no word is read.
pub fn begin(work: &mut [u32], triangles: &[u32], told: Told) -> Playing
    requires { (l : Lent) × CanBegin work.old triangles.now (told_of told) l }
    ensures { (l : Lent) → CanBegin work.old triangles.now (told_of told) l → Begins work.new (told_of told) l (state result) }
{
    let lay = Layout {
        slots: told.slots,
        points: told.capacity,
    };
    build(work, triangles, lay, told.count, told.given);
    Playing {
        at: 0,
        used: told.count,
        points: told.given,
        quads: 0,
        odd: false,
    }
}
