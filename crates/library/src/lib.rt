// The functions for programs in C and Rust, with numbers and slices only: the mesher, a mesh of a job,
// what an edge would give, the mesh of a trace, the quality sheet, the verdict on a finished mesh, the filing order
// and every small mesh.
// include/sedgepick.h documents them for callers.
#![tactic(auto)]

mod job;
mod orders;
mod preview;
mod replays;
mod sheets;
mod small_meshes;
mod verdict;

ghost use Rattle.std.specs.Prelude.{false, not, [], eqb};
ghost use Rattle.definition.specs.Numbers.{base};
ghost use Rattle.refusals.specs.Stated.{asked, asked_for};
ghost use Rattle.mesher.specs.Promise.{lent_of};
ghost use Rattle.library.specs.Exported.{set_of, Exported};

use answer_numbers::{ANSWER, short_answer, write_answer};
use mesher::run_front;
use refusals::{Room, Stated, standard};
use rules::Quality;

// Kept (1): C takes the answer as a number.
// The number of the refusal is returned, 0 where the run finished.
// Then its numbers come to the front of the answer; a refusal leaves the answer as it was.
fn answered(
    points: &mut [f64],
    triangles: &[u32],
    joints: &[u32],
    quads: &mut [u32],
    triangles_out: &mut [u32],
    components: &mut [u32],
    work: &mut [u32],
    float_work: &mut [f64],
    trace: &mut [u32],
    stated: Stated,
    answer: &mut [usize],
) -> usize
    ensures { Exported
        (asked stated)
        (lent_of points.old triangles.now joints.now quads.old triangles_out.old components.old work.old float_work.old trace.old)
        answer.old
        result
        answer.new
        (lent_of points.new triangles.now joints.now quads.new triangles_out.new components.new work.new float_work.new trace.new) }
{
    if answer.len() < ANSWER {
        let room = Room {
            quads: quads.len(),
            out: triangles_out.len(),
            components: components.len(),
            work: work.len(),
            floats: float_work.len(),
        };
        return short_answer(points, triangles, joints, stated, room);
    }
    match run_front(
        points,
        triangles,
        joints,
        quads,
        triangles_out,
        components,
        work,
        float_work,
        trace,
        stated,
    ) {
        Ok(a) => {
            write_answer(answer, a);
            0
        }
        Err(k) => k.into(),
    }
}

// run_front, with the standard quality set, without joints, trace and grid.
#[unsafe(no_mangle)]
pub extern "C" fn sedgepick_run_front(
    points: &mut [f64],
    triangles: &[u32],
    quads: &mut [u32],
    triangles_out: &mut [u32],
    components: &mut [u32],
    work: &mut [u32],
    float_work: &mut [f64],
    given: usize,
    capacity: usize,
    count: usize,
    slots: usize,
    size: f64,
    stop: u32,
    answer: &mut [usize],
) -> usize
    ensures { Exported
        (asked_for given capacity count slots 0 size stop base false)
        (lent_of points.old triangles.now [] quads.old triangles_out.old components.old work.old float_work.old [])
        answer.old
        result
        answer.new
        (lent_of points.new triangles.now [] quads.new triangles_out.new components.new work.new float_work.new []) }
{
    let stated = standard(given, capacity, count, slots, size, stop);
    let none = [0u32; 0];
    let mut no_trace = [0u32; 0];
    answered(
        points,
        triangles,
        &none,
        quads,
        triangles_out,
        components,
        work,
        float_work,
        &mut no_trace,
        stated,
        answer,
    )
}

// run_front, with joints, a trace (an empty slice is none), a quality set by its five numbers and,
// where `grid` is not 0, in the grid profile.
#[unsafe(no_mangle)]
pub extern "C" fn sedgepick_run_front_with(
    points: &mut [f64],
    triangles: &[u32],
    joints: &[u32],
    quads: &mut [u32],
    triangles_out: &mut [u32],
    components: &mut [u32],
    work: &mut [u32],
    float_work: &mut [f64],
    trace: &mut [u32],
    given: usize,
    capacity: usize,
    count: usize,
    slots: usize,
    joint_count: usize,
    size: f64,
    stop: u32,
    least_jacobian: f64,
    largest_cosine: f64,
    side_low: f64,
    side_high: f64,
    pairs: usize,
    grid: u32,
    answer: &mut [usize],
) -> usize
    ensures { Exported
        (asked_for given capacity count slots joint_count size stop (set_of least_jacobian largest_cosine side_low side_high pairs) (not (eqb grid 0)))
        (lent_of points.old triangles.now joints.now quads.old triangles_out.old components.old work.old float_work.old trace.old)
        answer.old
        result
        answer.new
        (lent_of points.new triangles.now joints.now quads.new triangles_out.new components.new work.new float_work.new trace.new) }
{
    let quality = Quality {
        least_jacobian,
        largest_cosine,
        side_low,
        side_high,
        pairs,
    };
    let stated = Stated {
        given,
        capacity,
        count,
        slots,
        joints: joint_count,
        size,
        stop,
        quality,
        grid: grid != 0,
    };
    answered(
        points,
        triangles,
        joints,
        quads,
        triangles_out,
        components,
        work,
        float_work,
        trace,
        stated,
        answer,
    )
}
