// What a front edge would give, for programs in C and Rust.
ghost use Rattle.std.specs.Prelude.{not, [], eqb};
ghost use Rattle.refusals.specs.Stated.{asked, asked_for};
ghost use Rattle.mesher.specs.Promise.{lent_of};
ghost use Rattle.library.specs.Exported.{set_of};
ghost use Rattle.library.specs.Previews.{ExportedPreview};

use answer_numbers::previews::{NUMBERS, put_shown};
use answer_numbers::short_answer;
use previews::preview;
use refusals::{Room, Stated};
use rules::Quality;

// The preview, with what it shows in the answer; without room for that, the refusal that comes first, or 4.
fn previewed(
    points: &mut [f64],
    triangles: &[u32],
    joints: &[u32],
    quads: &[u32],
    triangles_out: &[u32],
    components: &[u32],
    work: &mut [u32],
    float_work: &mut [f64],
    stated: Stated,
    u: usize,
    v: usize,
    answer: &mut [usize],
) -> usize
    ensures { ExportedPreview
        (asked stated)
        (lent_of points.old triangles.now joints.now quads.now triangles_out.now components.now work.old float_work.old [])
        u v
        answer.old
        result
        answer.new
        (lent_of points.new triangles.now joints.now quads.now triangles_out.now components.now work.new float_work.new []) }
{
    if answer.len() < NUMBERS {
        let room = Room {
            quads: quads.len(),
            out: triangles_out.len(),
            components: components.len(),
            work: work.len(),
            floats: float_work.len(),
        };
        return short_answer(points, triangles, joints, stated, room);
    }
    let shown = preview(
        points,
        triangles,
        joints,
        quads,
        triangles_out,
        components,
        work,
        float_work,
        stated,
        u,
        v,
    );
    put_shown(answer, shown)
}

// Kept (1): C takes the answer as a number.
// What the edge between u and v would give, by the inputs of sedgepick_run_front_with.
// The number of the refusal is returned, 0 where something is shown.
// Both work slices are zero then, and no other slice but the answer is touched.
#[unsafe(no_mangle)]
pub extern "C" fn sedgepick_preview(
    points: &mut [f64],
    triangles: &[u32],
    joints: &[u32],
    quads: &[u32],
    triangles_out: &[u32],
    components: &[u32],
    work: &mut [u32],
    float_work: &mut [f64],
    given: usize,
    capacity: usize,
    count: usize,
    slots: usize,
    joint_count: usize,
    size: f64,
    stop: u32,
    least_jacobian: f64,
    largest_cosine: f64,
    side_low: f64,
    side_high: f64,
    pairs: usize,
    grid: u32,
    u: usize,
    v: usize,
    answer: &mut [usize],
) -> usize
    ensures { ExportedPreview
        (asked_for given capacity count slots joint_count size stop (set_of least_jacobian largest_cosine side_low side_high pairs) (not (eqb grid 0)))
        (lent_of points.old triangles.now joints.now quads.now triangles_out.now components.now work.old float_work.old [])
        u v
        answer.old
        result
        answer.new
        (lent_of points.new triangles.now joints.now quads.now triangles_out.now components.now work.new float_work.new []) }
{
    let quality = Quality {
        least_jacobian,
        largest_cosine,
        side_low,
        side_high,
        pairs,
    };
    let stated = Stated {
        given,
        capacity,
        count,
        slots,
        joints: joint_count,
        size,
        stop,
        quality,
        grid: grid != 0,
    };
    previewed(
        points,
        triangles,
        joints,
        quads,
        triangles_out,
        components,
        work,
        float_work,
        stated,
        u,
        v,
        answer,
    )
}
