// The run of a call that is not refused before it.
ghost use Rattle.std.specs.Prelude.{◌≡◌, ◌≤◌, length, Ok};
ghost use Rattle.definition.specs.Cells.{Mesh};
ghost use Rattle.definition.specs.Numbers.{max_attempts};
ghost use Rattle.definition.specs.Call.{Lent};
ghost use Rattle.refusals.specs.Numbers.{number_or_0};
ghost use Rattle.refusals.specs.Refusals.{first_refusal};
ghost use Rattle.refusals.specs.Stated.{asked};
ghost use Rattle.rounds.specs.Loop.{RunTo};
ghost use Rattle.mesher.specs.Promise.{answered, lent_of};
ghost use Rattle.mesher.specs.Parts.{finish_number, sized, rules_of, progress_of, CanMesh, CanFinish, FinishTo, RanTo};

use crate::Answer;
use crate::setup::rules_of;
use allowances::attempts_made;
use cells::clear::clear;
use cells::counters::Counters;
use cells::layout::Layout;
use components::sizes::component_sizes;
use joints::{TABLE, put_joints};
use leftovers::write_triangles;
use meshes::build::build;
use outcomes::Shortage;
use refusals::{Refusal, Stated};
use rounds::front::front_loop;
use settling::standing::{Run, Standing};

// What a call that ran answers, and the attempts charged to it: those made,
// or, where want of lent memory ended the run, those begun.
#[derive(Clone, Copy)]
pub struct Ran {
    pub answer: Result<Answer, Refusal>,
    pub charged: usize,
}

// How a run ended that want of lent memory broke off; Ok where it finished.
fn ended(finish: Result<(), Shortage>) -> Result<(), Refusal>
    ensures { number_or_0 result ≡ finish_number finish }
{
    Ok(finish?)
}

// The mesh of the given triangles, the table of the joints,
// and the rounds over the front, with at most so many attempts.
fn mesh(
    points: &mut [f64],
    triangles: &[u32],
    joints: &[u32],
    quads: &mut [u32],
    work: &mut [u32],
    float_work: &mut [f64],
    trace: &mut [u32],
    stated: Stated,
    attempts: usize,
) -> Run
    requires { (l : Lent) × CanMesh points.old triangles.now joints.now quads.old work.old float_work.old trace.old attempts (asked stated) l }
    ensures { (l : Lent) (k : CanMesh points.old triangles.now joints.now quads.old work.old float_work.old trace.old attempts (asked stated) l) → RunTo work.old work.new points.old points.new float_work.old float_work.new quads.old quads.new trace.old trace.new (rules_of attempts (length trace.old) (asked stated) (sized (asked stated) l k.passed)) (progress_of attempts (asked stated) l) result }
{
    let lay = Layout {
        slots: stated.slots,
        points: stated.capacity,
    };
    build(work, triangles, lay, stated.count, stated.given);
    let c = Counters::new(stated.count, stated.given);
    let rules = rules_of(stated, lay, attempts, trace.len());
    let mut table = [0u32; TABLE];
    put_joints(&mut table, joints, stated.joints);
    front_loop(work, points, float_work, quads, trace, &table, rules, c)
}

// Kept (4): no struct is copied, for the answer is made of the counters, the tally and three lengths together.
// The triangles that are left and the sizes of their components come to the front of their slices.
// The answer is that of the finished run.
fn finish(
    triangles_out: &mut [u32],
    components: &mut [u32],
    work: &mut [u32],
    lay: Layout,
    g: Standing,
) -> Answer
    requires { (m : Mesh) × CanFinish work.old triangles_out.old components.old lay.slots lay.points g m }
    ensures { (m : Mesh) → CanFinish work.old triangles_out.old components.old lay.slots lay.points g m → FinishTo triangles_out.old triangles_out.new components.old components.new g m (answered (Ok result)) }
{
    let c = g.counters;
    let t = g.tally;
    let left = write_triangles(work, triangles_out, lay, c.used);
    let sizes = component_sizes(work, components, lay, c.used);
    Answer {
        front_empty: t.front_empty,
        attempts: c.attempts,
        placement: t.placement,
        invalid_quad: t.invalid_quad,
        recovery: t.recovery,
        region: t.region,
        odd_region: t.odd_region,
        mismatch_insertions: t.mismatch_insertions,
        limit: t.limit,
        quads: g.quads,
        triangles: left,
        points: c.points,
        components: sizes,
        trials: t.trials,
        words: g.words,
    }
}

// The run, with at most so many attempts; at its end both work slices are cleared whole.
pub fn run(
    points: &mut [f64],
    triangles: &[u32],
    joints: &[u32],
    quads: &mut [u32],
    triangles_out: &mut [u32],
    components: &mut [u32],
    work: &mut [u32],
    float_work: &mut [f64],
    trace: &mut [u32],
    stated: Stated,
    attempts: usize,
) -> Ran
    requires trace_value { first_refusal (asked stated) (lent_of points.old triangles.now joints.now quads.old triangles_out.old components.old work.old float_work.old trace.old) ≡ 0 }
    requires attempts_bound { attempts ≤ max_attempts (asked stated).count }
    ensures { RanTo attempts (asked stated)
        (lent_of points.old triangles.now joints.now quads.old triangles_out.old components.old work.old float_work.old trace.old)
        result
        (lent_of points.new triangles.now joints.now quads.new triangles_out.new components.new work.new float_work.new trace.new) }
{
    let end = mesh(
        points, triangles, joints, quads, work, float_work, trace, stated, attempts,
    );
    let g = end.standing;
    if let Err(k) = ended(end.finish) {
        clear(work, 0);
        clear(float_work, 0.0);
        let begun = g.counters;
        return Ran {
            answer: Err(k),
            charged: begun.attempts,
        };
    }
    let lay = Layout {
        slots: stated.slots,
        points: stated.capacity,
    };
    let answer = finish(triangles_out, components, work, lay, g);
    clear(work, 0);
    clear(float_work, 0.0);
    let charged = attempts_made(answer.attempts, answer.limit);
    Ran {
        answer: Ok(answer),
        charged,
    }
}
