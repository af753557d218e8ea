// The acceptance of a finished mesh: the refusals, and then the verdict, over lent slices.
#![tactic(auto)]

pub mod leaves;

ghost use Rattle.std.specs.Prelude.{◌≡◌};
ghost use Rattle.refusals.specs.Refusals.{number_of};
ghost use Rattle.accept.specs.Call.{refused};
ghost use Rattle.accept_refusals.specs.Stated.{handed};
ghost use Rattle.verdicts.specs.Promise.{Answers};

use crate::leaves::judge;
use accept_refusals::{Stated, refusal};
use cells::clear::clear;
use offenders::points::first_moved;
use offenders::quads::{first_folded, first_sharp};
use offenders::triangles::first_thin;
use refusals::Refusal;
use uprights::first_flat;

// Of each clause the first offender, None where none offends; how many points were added;
// the least edge that is not level and the first joint that is lost; how many components there are,
// and how many are odd.
#[derive(Clone, Copy)]
pub struct Answered {
    pub moved: Option<usize>,
    pub added: usize,
    pub folded: Option<usize>,
    pub sharp: Option<usize>,
    pub given_turned: Option<usize>,
    pub left_turned: Option<usize>,
    pub thin: Option<usize>,
    pub uneven: Option<(usize, usize)>,
    pub lost: Option<usize>,
    pub groups: usize,
    pub odd: usize,
}

// Kept (4): the fields are what ten searches found, and no copy of one struct.
// The verdict on a mesh that no condition refuses.
fn answer(
    given: &[f64],
    triangles: &[u32],
    points: &[f64],
    quads: &[u32],
    left: &[u32],
    joints: &[u32],
    components: &mut [u32],
    work: &mut [u32],
    parents: &mut [u32],
    a: Stated,
) -> Answered
    requires { number_of (refused (handed given.now triangles.now points.now quads.now left.now joints.now components.old work.old parents.old a)) ≡ 0 }
    ensures { Answers (handed given.now triangles.now points.now quads.now left.now joints.now components.old work.old parents.old a) (Ok result) components.new work.new parents.new }
{
    let moved = first_moved(given, a.given, points, a.points);
    let added = a.points.saturating_sub(a.given);
    let folded = first_folded(points, quads, a.quads);
    let sharp = first_sharp(points, quads, a.quads, a.cosine);
    let given_turned = first_flat(given, triangles, a.count);
    let left_turned = first_flat(points, left, a.left);
    let thin = first_thin(points, left, a.left, a.thin);
    let found = judge(
        given, triangles, a.count, points, quads, a.quads, left, a.left, joints, a.joints, work,
        parents, components,
    );
    clear(work, 0);
    clear(parents, 0);
    Answered {
        moved,
        added,
        folded,
        sharp,
        given_turned,
        left_turned,
        thin,
        uneven: found.uneven,
        lost: found.lost,
        groups: found.components,
        odd: found.odd,
    }
}

// The acceptance of a finished mesh: a refusal or a verdict; no precondition.
// The sizes stand at the front of `components` then and both work slices are cleared; a refusal touches nothing.
pub fn accept(
    given: &[f64],
    triangles: &[u32],
    points: &[f64],
    quads: &[u32],
    left: &[u32],
    joints: &[u32],
    components: &mut [u32],
    work: &mut [u32],
    parents: &mut [u32],
    a: Stated,
) -> Result<Answered, Refusal>
    ensures { Answers (handed given.now triangles.now points.now quads.now left.now joints.now components.old work.old parents.old a) result components.new work.new parents.new }
{
    refusal(
        given, triangles, points, quads, left, joints, components, work, parents, a,
    )?;
    Ok(answer(
        given, triangles, points, quads, left, joints, components, work, parents, a,
    ))
}
