// A job: up to 16 meshes under one attempt allowance, run in turn.
// The state is a value; each mesh has slices of its own.
#![tactic(auto)]

ghost use Rattle.definition.specs.Job.{job_limit, job};
ghost use Rattle.refusals.specs.Stated.{asked};
ghost use Rattle.allowances.specs.States.{job_of};
ghost use Rattle.mesher.specs.Promise.{answered, lent_of, KeptAccountWithin, KeptJoints, KeptArea};
ghost use Rattle.jobs.specs.Jobs.{JobReturns};

use allowances::{Job, bad_job, handed_on, limit_of};
use mesher::Answer;
use mesher::run::run;
use refusals::{Refusal, Room, Stated, refusal};

// What a mesh of a job comes to: the answer or why it is refused, the attempts charged, and the state for the next mesh.
#[derive(Clone, Copy)]
pub struct Mesh {
    pub answer: Result<Answer, Refusal>,
    pub charged: usize,
    pub next: Job,
}

// The next mesh of a job, in slices of its own: as run_front, with no more attempts than the job leaves it.
// BadJob comes before every other refusal and hands the state back as it was.
// A mesh that is refused says so in its answer, and the job goes on.
pub fn run_mesh(
    points: &mut [f64],
    triangles: &[u32],
    joints: &[u32],
    quads: &mut [u32],
    triangles_out: &mut [u32],
    components: &mut [u32],
    work: &mut [u32],
    float_work: &mut [f64],
    trace: &mut [u32],
    state: Job,
    stated: Stated,
) -> Mesh
    ensures job_returns { JobReturns
        (job (job_of state)
        (asked stated)
        (lent_of points.old triangles.now joints.now quads.old triangles_out.old components.old work.old float_work.old trace.old))
        result
        (lent_of points.new triangles.now joints.now quads.new triangles_out.new components.new work.new float_work.new trace.new) }
    ensures kept_account_within { KeptAccountWithin
        (job_limit (job_of state) (asked stated))
        (asked stated)
        (lent_of points.old triangles.now joints.now quads.old triangles_out.old components.old work.old float_work.old trace.old)
        (answered result.answer)
        (lent_of points.new triangles.now joints.now quads.new triangles_out.new components.new work.new float_work.new trace.new) }
    ensures kept_joints { KeptJoints
        (asked stated)
        (lent_of points.old triangles.now joints.now quads.old triangles_out.old components.old work.old float_work.old trace.old)
        (answered result.answer)
        (lent_of points.new triangles.now joints.now quads.new triangles_out.new components.new work.new float_work.new trace.new) }
    ensures kept_area { KeptArea
        (asked stated)
        (lent_of points.old triangles.now joints.now quads.old triangles_out.old components.old work.old float_work.old trace.old)
        (answered result.answer)
        (lent_of points.new triangles.now joints.now quads.new triangles_out.new components.new work.new float_work.new trace.new) }
{
    if bad_job(state) {
        return Mesh {
            answer: Err(Refusal::BadJob),
            charged: 0,
            next: state,
        };
    }
    let room = Room {
        quads: quads.len(),
        out: triangles_out.len(),
        components: components.len(),
        work: work.len(),
        floats: float_work.len(),
    };
    if let Err(k) = refusal(points, triangles, joints, stated, room) {
        return Mesh {
            answer: Err(k),
            charged: 0,
            next: handed_on(state, 0),
        };
    }
    let most = limit_of(state, stated);
    let ran = run(
        points,
        triangles,
        joints,
        quads,
        triangles_out,
        components,
        work,
        float_work,
        trace,
        stated,
        most,
    );
    let answer = ran.answer;
    let charged = ran.charged;
    Mesh {
        answer,
        charged,
        next: handed_on(state, charged),
    }
}
