// What a mesh of a job may use: its share of the job's attempt allowance and what the mesh before it left,
// as numbers alone.
#![tactic(auto)]

ghost use Rattle.std.specs.Prelude.{◌≡◌, false, ◌-◌, ◌≤◌};
ghost use Rattle.definition.specs.Job.{entitled, bad_job, job_limit, handed_on};
ghost use Rattle.account.specs.Jobs.{job_start};
ghost use Rattle.refusals.specs.Stated.{asked};
ghost use Rattle.allowances.specs.States.{job_of};

use refusals::Stated;

// The usual limit on attempts: so many for each given triangle, and so many more.
pub const ATTEMPTS_EACH: usize = 200;

pub const ATTEMPTS_MORE: usize = 10000;

// The most meshes of a job, and the greatest allowance.
pub const MOST_MESHES: usize = 16;

pub const MOST_ALLOWANCE: usize = 1000000;

// The job's meshes, its attempt allowance, the meshes done, and what the one before left of what it was entitled to.
#[derive(Clone, Copy)]
pub struct Job {
    pub meshes: usize,
    pub allowance: usize,
    pub done: usize,
    pub left: usize,
}

// A job of so many meshes under an allowance: nothing is done, and nothing left over.
pub fn start(meshes: usize, allowance: usize) -> Job
    ensures { job_of result ≡ job_start meshes allowance }
{
    Job {
        meshes,
        allowance,
        done: 0,
        left: 0,
    }
}

// 16: no mesh, too many or one past their number; no allowance or too great a one;
// more left than the meshes before could leave.
pub fn bad_job(j: Job) -> bool
    ensures { result ≡ bad_job (job_of j) }
{
    if j.meshes == 0 {
        return true;
    }
    if j.meshes > MOST_MESHES {
        return true;
    }
    if j.done >= j.meshes {
        return true;
    }
    if j.allowance == 0 {
        return true;
    }
    if j.allowance > MOST_ALLOWANCE {
        return true;
    }
    let share = j.allowance / j.meshes;
    let most = j.done * share;
    j.left > most
}

// What the next mesh is entitled to.
fn entitled(j: Job) -> usize
    requires { bad_job (job_of j) ≡ false }
    ensures { result ≡ entitled (job_of j) }
{
    j.allowance / j.meshes + j.left
}

// The state after a mesh that was charged so many attempts.
pub fn handed_on(j: Job, charged: usize) -> Job
    requires j_value { bad_job (job_of j) ≡ false }
    requires charged_bound { charged ≤ entitled (job_of j) }
    ensures { job_of result ≡ handed_on (job_of j) charged }
{
    let own = entitled(j);
    Job {
        meshes: j.meshes,
        allowance: j.allowance,
        done: j.done + 1,
        left: own - charged,
    }
}

// The attempt limit of a mesh of so many triangles: its usual one, or what it is entitled to.
pub fn limit_of(j: Job, stated: Stated) -> usize
    requires j_value { bad_job (job_of j) ≡ false }
    requires stated_bound { (asked stated).count ≤ 4096 }
    ensures { result ≡ job_limit (job_of j) (asked stated) }
{
    let own = entitled(j);
    let usual = ATTEMPTS_EACH * stated.count + ATTEMPTS_MORE;
    if own < usual {
        return own;
    }
    usual
}

// The attempts made of those that were counted: one that a limit stopped was counted and not made.
pub fn attempts_made(attempts: usize, limit: usize) -> usize
    requires { limit ≤ attempts }
    ensures { result ≡ attempts - limit }
{
    attempts - limit
}
