// The state of a job in a slice.
ghost use Rattle.std.specs.Prelude.{◌≡◌, [], ◌∷◌, length, ◌≤◌};
ghost use Rattle.definition.specs.Call.{onto};
ghost use Rattle.allowances.specs.States.{job_of};
ghost use Rattle.answer_numbers.specs.Jobs.{state_in};

use allowances::Job;

// Numbers of a job's slice: the four of its state, and the attempts charged.
pub const JOB: usize = 5;

// The state at the front of the slice.
pub fn state_in(job: &[usize]) -> Job
    requires { 5 ≤ length job.now }
    ensures { job_of result ≡ state_in job.now }
{
    Job {
        meshes: job[0],
        allowance: job[1],
        done: job[2],
        left: job[3],
    }
}

// The state to hand on and the attempts charged come to the front of the slice.
pub fn write_job(job: &mut [usize], next: Job, charged: usize)
    requires { 5 ≤ length job.old }
    ensures { job.new ≡ onto (next.meshes ∷ next.allowance ∷ next.done ∷ next.left ∷ charged ∷ []) job.old }
{
    job[0] = next.meshes;
    job[1] = next.allowance;
    job[2] = next.done;
    job[3] = next.left;
    job[4] = charged;
}
