// The verdict on a finished mesh, for programs in C and Rust.
ghost use Rattle.accept_refusals.specs.Stated.{handed};
ghost use Rattle.library.specs.Verdicts.{stated, ExportedVerdict};

use accept_numbers::{VERDICT, put_verdict, short_verdict};
use accept_refusals::Stated;
use verdicts::accept;

// Kept (1): C takes the answer as a number.
// The number of the refusal is returned, 0 where there is a verdict.
// Then its numbers come to the front of the answer; a refusal leaves the answer as it was.
fn judged(
    given_points: &[f64],
    triangles: &[u32],
    points: &[f64],
    quads: &[u32],
    left: &[u32],
    joints: &[u32],
    components: &mut [u32],
    work: &mut [u32],
    parents: &mut [u32],
    a: Stated,
    answer: &mut [usize],
) -> usize
    ensures { ExportedVerdict
        (handed given_points.now triangles.now points.now quads.now left.now joints.now components.old work.old parents.old a)
        answer.old
        result
        answer.new
        components.new
        work.new
        parents.new }
{
    if answer.len() < VERDICT {
        return short_verdict(
            given_points,
            triangles,
            points,
            quads,
            left,
            joints,
            components,
            work,
            parents,
            a,
        );
    }
    let found = accept(
        given_points,
        triangles,
        points,
        quads,
        left,
        joints,
        components,
        work,
        parents,
        a,
    );
    put_verdict(answer, components, found, a)
}

// The verdict on the result (points, quads, leftover triangles) over the given points and triangles,
// by two limits on cosines; thirteen numbers in the answer.
#[unsafe(no_mangle)]
pub extern "C" fn sedgepick_accept(
    given_points: &[f64],
    triangles: &[u32],
    points: &[f64],
    quads: &[u32],
    left: &[u32],
    joints: &[u32],
    components: &mut [u32],
    work: &mut [u32],
    parents: &mut [u32],
    given: usize,
    count: usize,
    point_count: usize,
    quad_count: usize,
    left_count: usize,
    joint_count: usize,
    cosine: f64,
    thin: f64,
    answer: &mut [usize],
) -> usize
    ensures { ExportedVerdict
        (handed given_points.now triangles.now points.now quads.now left.now joints.now components.old work.old parents.old (stated given count point_count quad_count left_count joint_count cosine thin))
        answer.old
        result
        answer.new
        components.new
        work.new
        parents.new }
{
    let a = Stated {
        given,
        count,
        points: point_count,
        quads: quad_count,
        left: left_count,
        joints: joint_count,
        cosine,
        thin,
    };
    judged(
        given_points,
        triangles,
        points,
        quads,
        left,
        joints,
        components,
        work,
        parents,
        a,
        answer,
    )
}
