// A mesh of a job, its state in a slice of its own.
ghost use Rattle.std.specs.Prelude.{not, eqb};
ghost use Rattle.refusals.specs.Stated.{asked, asked_for};
ghost use Rattle.mesher.specs.Promise.{lent_of};
ghost use Rattle.library.specs.Exported.{set_of};
ghost use Rattle.library.specs.Jobs.{ExportedJob};

use allowances::bad_job;
use answer_numbers::jobs::{JOB, state_in, write_job};
use answer_numbers::{ANSWER, write_answer};
use jobs::run_mesh;
use refusals::{Refusal, Stated};
use rules::Quality;

// Kept (1): C takes the answer as a number.
// The number of the refusal is returned, 0 where the run finished.
// A state that 16 refuses and an answer without room leave every slice as it was.
// Otherwise the state to hand on and the attempts charged come to the front of the job's slice,
// also where the mesh is refused; then the numbers of a finished run come to the front of the answer.
fn meshed(
    points: &mut [f64],
    triangles: &[u32],
    joints: &[u32],
    quads: &mut [u32],
    triangles_out: &mut [u32],
    components: &mut [u32],
    work: &mut [u32],
    float_work: &mut [f64],
    trace: &mut [u32],
    stated: Stated,
    job: &mut [usize],
    answer: &mut [usize],
) -> usize
    ensures { ExportedJob
        (asked stated)
        (lent_of points.old triangles.now joints.now quads.old triangles_out.old components.old work.old float_work.old trace.old)
        job.old
        answer.old
        result
        job.new
        answer.new
        (lent_of points.new triangles.now joints.now quads.new triangles_out.new components.new work.new float_work.new trace.new) }
{
    if job.len() < JOB {
        return Refusal::TooShort.into();
    }
    let state = state_in(job);
    if bad_job(state) {
        return Refusal::BadJob.into();
    }
    if answer.len() < ANSWER {
        return Refusal::TooShort.into();
    }
    let m = run_mesh(
        points,
        triangles,
        joints,
        quads,
        triangles_out,
        components,
        work,
        float_work,
        trace,
        state,
        stated,
    );
    write_job(job, m.next, m.charged);
    match m.answer {
        Ok(a) => {
            write_answer(answer, a);
            0
        }
        Err(k) => k.into(),
    }
}

// The next mesh of a job, as sedgepick_run_front_with, with no more attempts than the job leaves it.
// The job's five numbers: meshes, allowance, meshes done, what is left, and the attempts charged.
// The first four of what comes back go to the next mesh.
#[unsafe(no_mangle)]
pub extern "C" fn sedgepick_job(
    points: &mut [f64],
    triangles: &[u32],
    joints: &[u32],
    quads: &mut [u32],
    triangles_out: &mut [u32],
    components: &mut [u32],
    work: &mut [u32],
    float_work: &mut [f64],
    trace: &mut [u32],
    given: usize,
    capacity: usize,
    count: usize,
    slots: usize,
    joint_count: usize,
    size: f64,
    stop: u32,
    least_jacobian: f64,
    largest_cosine: f64,
    side_low: f64,
    side_high: f64,
    pairs: usize,
    grid: u32,
    job: &mut [usize],
    answer: &mut [usize],
) -> usize
    ensures { ExportedJob
        (asked_for given capacity count slots joint_count size stop (set_of least_jacobian largest_cosine side_low side_high pairs) (not (eqb grid 0)))
        (lent_of points.old triangles.now joints.now quads.old triangles_out.old components.old work.old float_work.old trace.old)
        job.old
        answer.old
        result
        job.new
        answer.new
        (lent_of points.new triangles.now joints.now quads.new triangles_out.new components.new work.new float_work.new trace.new) }
{
    let quality = Quality {
        least_jacobian,
        largest_cosine,
        side_low,
        side_high,
        pairs,
    };
    let stated = Stated {
        given,
        capacity,
        count,
        slots,
        joints: joint_count,
        size,
        stop,
        quality,
        grid: grid != 0,
    };
    meshed(
        points,
        triangles,
        joints,
        quads,
        triangles_out,
        components,
        work,
        float_work,
        trace,
        stated,
        job,
        answer,
    )
}
