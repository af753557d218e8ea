// What an acceptance tells programs in C and Rust, as numbers in a slice.
#![tactic(auto)]

ghost use Rattle.std.specs.Prelude.{◌≡◌, List, ℕ, ◌≤◌, length};
ghost use Rattle.definition.specs.Call.{onto};
ghost use Rattle.refusals.specs.Refusals.{number_of};
ghost use Rattle.accept.specs.Call.{refused};
ghost use Rattle.accept_refusals.specs.Stated.{handed};
ghost use Rattle.verdicts.specs.Promise.{verdict_of, answer_of};
ghost use Rattle.accept_numbers.specs.Numbers.{clean, listed, up_to_4, Tells};
ghost use Rattle.accept_numbers.specs.Said.{counts, in_order};

use accept_refusals::{Stated, refusal};
use refusals::Refusal;
use verdicts::Answered;

// Numbers of a verdict: whether it accepts, the first offender of each clause,
// and the points added, the components and the odd ones.
pub const VERDICT: usize = 13;

// What a verdict tells, in the order of the numbers.
// Each offender is told by its place, or by how many entries there are where none offends.
// u and v are the ends of the least uneven edge.
#[derive(Clone, Copy)]
pub struct Told {
    pub accepted: usize,
    pub moved: usize,
    pub added: usize,
    pub folded: usize,
    pub sharp: usize,
    pub given_flat: usize,
    pub left_flat: usize,
    pub thin: usize,
    pub u: usize,
    pub v: usize,
    pub joint: usize,
    pub groups: usize,
    pub odd: usize,
}

// No clause has an offender.
fn accepted(a: Answered) -> bool
    ensures { (components : List ℕ) → result ≡ clean (verdict_of a components) }
{
    a.moved.is_none()
        && a.folded.is_none()
        && a.sharp.is_none()
        && a.given_turned.is_none()
        && a.left_turned.is_none()
        && a.thin.is_none()
        && a.uneven.is_none()
        && a.lost.is_none()
}

// The numbers of a verdict; `components` is the slice with the sizes at its front.
fn numbers(a: Answered, s: Stated, components: &[u32]) -> Told
    ensures { in_order result ≡ listed (counts s) (verdict_of a components.now) }
{
    let yes = usize::from(accepted(a));
    let (u, v) = a.uneven.unwrap_or((0, 0));
    Told {
        accepted: yes,
        moved: a.moved.unwrap_or(s.given),
        added: a.added,
        folded: a.folded.unwrap_or(s.quads),
        sharp: a.sharp.unwrap_or(s.quads),
        given_flat: a.given_turned.unwrap_or(s.count),
        left_flat: a.left_turned.unwrap_or(s.left),
        thin: a.thin.unwrap_or(s.left),
        u,
        v,
        joint: a.lost.unwrap_or(s.joints),
        groups: a.groups.min(components.len()),
        odd: a.odd,
    }
}

// The numbers of a verdict come to the front of the slice.
fn write_told(answer: &mut [usize], t: Told)
    requires { 13 ≤ length answer.old }
    ensures { answer.new ≡ onto (in_order t) answer.old }
{
    answer[0] = t.accepted;
    answer[1] = t.moved;
    answer[2] = t.added;
    answer[3] = t.folded;
    answer[4] = t.sharp;
    answer[5] = t.given_flat;
    answer[6] = t.left_flat;
    answer[7] = t.thin;
    answer[8] = t.u;
    answer[9] = t.v;
    answer[10] = t.joint;
    answer[11] = t.groups;
    answer[12] = t.odd;
}

// Kept (1): C's callers read the refusal's number, which `Tells` states.
// The number of the refusal is returned, 0 where there is a verdict.
// Then its numbers come to the front of the slice; a refusal leaves the slice as it was.
pub fn put_verdict(
    answer: &mut [usize],
    components: &[u32],
    a: Result<Answered, Refusal>,
    s: Stated,
) -> usize
    requires { 13 ≤ length answer.old }
    ensures { Tells (counts s) (answer_of a components.now) answer.old result answer.new }
{
    match a {
        Err(e) => usize::from(e),
        Ok(found) => {
            write_told(answer, numbers(found, s, components));
            0
        }
    }
}

// Kept (1): C's callers read the refusal's number, which `up_to_4` states.
// The number of a call whose answer is too short: the first of 1 and 14 whose condition holds, otherwise 4.
pub fn short_verdict(
    given: &[f64],
    triangles: &[u32],
    points: &[f64],
    quads: &[u32],
    left: &[u32],
    joints: &[u32],
    components: &[u32],
    work: &[u32],
    parents: &[u32],
    a: Stated,
) -> usize
    ensures { result ≡ up_to_4 (number_of (refused (handed given.now triangles.now points.now quads.now left.now joints.now components.now work.now parents.now a))) }
{
    match refusal(
        given, triangles, points, quads, left, joints, components, work, parents, a,
    ) {
        Err(Refusal::OverLimit) => 1,
        Err(Refusal::BadQuality) => 14,
        _ => 4,
    }
}
