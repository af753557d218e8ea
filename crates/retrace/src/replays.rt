// The replay of a trace, in lent memory.
ghost use Rattle.definition.specs.Replay.{replay};
ghost use Rattle.retrace.specs.Replaying.{told_of, lent_of, answered, Replays};

use crate::Told;
use crate::ending::{Replayed, finish};
use crate::entries::play;
use crate::opening::{begin, opening};
use cells::clear::clear;
use cells::layout::Layout;
use joints::TABLE;
use refusals::{Refusal, Room};

// The mesh of the given triangles is changed by the entries that stand in the first `words` words of the trace,
// one after the other; no edge of it is locked.
// No precondition: the definition's replay says what comes back and what each slice holds then.
pub fn replay(
    points: &mut [f64],
    triangles: &[u32],
    trace: &[u32],
    quads: &mut [u32],
    triangles_out: &mut [u32],
    components: &mut [u32],
    work: &mut [u32],
    float_work: &mut [f64],
    told: Told,
) -> Result<Replayed, Refusal>
    ensures { Replays
        (replay
        (told_of told)
        (lent_of points.old triangles.now trace.now quads.old triangles_out.old components.old work.old float_work.old))
        (answered result)
        (lent_of points.new triangles.now trace.now quads.new triangles_out.new components.new work.new float_work.new) }
{
    let room = Room {
        quads: quads.len(),
        out: triangles_out.len(),
        components: components.len(),
        work: work.len(),
        floats: float_work.len(),
    };
    opening(points, triangles, trace.len(), told, room)?;
    let first = begin(work, triangles, told);
    let lay = Layout {
        slots: told.slots,
        points: told.capacity,
    };
    let unlocked = [0u32; TABLE];
    let words = told.words;
    let done = play(points, quads, work, &trace[..words], &unlocked, lay, first);
    match done {
        Err(k) => {
            clear(work, 0);
            clear(float_work, 0.0);
            Err(k)
        }
        Ok(end) => {
            let answer = finish(triangles_out, components, work, lay, end);
            clear(work, 0);
            clear(float_work, 0.0);
            Ok(answer)
        }
    }
}
