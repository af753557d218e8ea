// The mesh of a trace, built again, for programs in C and Rust.
ghost use Rattle.std.specs.Prelude.{[]};
ghost use Rattle.mesher.specs.Promise.{lent_of};
ghost use Rattle.answer_numbers.specs.Replays.{told_for};
ghost use Rattle.library.specs.Replays.{ExportedReplay};

use answer_numbers::replays::{LENGTHS, put_replayed, short_replay};
use refusals::Room;
use retrace::Told;
use retrace::replays::replay;

// Kept (1): C takes the answer as a number.
// The mesh of the first `words` words of a trace over the given points and triangles.
// The number of the refusal is returned, 0 where the whole trace was replayed.
// Then the lengths of the four lists come to the front of the answer; a refusal leaves the answer as it was.
#[unsafe(no_mangle)]
pub extern "C" fn sedgepick_replay(
    points: &mut [f64],
    triangles: &[u32],
    trace: &[u32],
    quads: &mut [u32],
    triangles_out: &mut [u32],
    components: &mut [u32],
    work: &mut [u32],
    float_work: &mut [f64],
    given: usize,
    capacity: usize,
    count: usize,
    slots: usize,
    words: usize,
    answer: &mut [usize],
) -> usize
    ensures { ExportedReplay
        (told_for given capacity count slots words)
        (lent_of points.old triangles.now [] quads.old triangles_out.old components.old work.old float_work.old trace.now)
        answer.old
        result
        answer.new
        (lent_of points.new triangles.now [] quads.new triangles_out.new components.new work.new float_work.new trace.now) }
{
    let told = Told {
        given,
        capacity,
        count,
        slots,
        words,
    };
    if answer.len() < LENGTHS {
        let room = Room {
            quads: quads.len(),
            out: triangles_out.len(),
            components: components.len(),
            work: work.len(),
            floats: float_work.len(),
        };
        return short_replay(points, triangles, told, room);
    }
    let r = replay(
        points,
        triangles,
        trace,
        quads,
        triangles_out,
        components,
        work,
        float_work,
        told,
    );
    put_replayed(answer, r)
}
