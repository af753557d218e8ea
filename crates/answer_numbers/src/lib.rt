// What a run, a mesh of a job, a preview and the replay of a trace tell programs in C and Rust,
// as numbers in a slice.
#![tactic(auto)]

pub mod jobs;
pub mod previews;
pub mod replays;

ghost use Rattle.std.specs.Prelude.{◌≡◌, ◌≤◌, length, Ok};
ghost use Rattle.definition.specs.Call.{Lent, onto};
ghost use Rattle.refusals.specs.Stated.{Lends, asked};
ghost use Rattle.refusals.specs.Refusals.{first_refusal};
ghost use Rattle.mesher.specs.Promise.{answered};
ghost use Rattle.answer_numbers.specs.Runs.{numbers, up_to_4};

use mesher::Answer;
use refusals::{Room, Stated, number_or_0, refusal};

// Numbers of a finished run: nine counts, four lengths, the pairs tried, and the words of its trace.
pub const ANSWER: usize = 15;

// The numbers of a finished run come to the front of the slice.
pub fn write_answer(answer: &mut [usize], a: Answer)
    requires { 15 ≤ length answer.old }
    ensures { answer.new ≡ onto (numbers (answered (Ok a))) answer.old }
{
    answer[0] = a.front_empty;
    answer[1] = a.attempts;
    answer[2] = a.placement;
    answer[3] = a.invalid_quad;
    answer[4] = a.recovery;
    answer[5] = a.region;
    answer[6] = a.odd_region;
    answer[7] = a.mismatch_insertions;
    answer[8] = a.limit;
    answer[9] = a.quads;
    answer[10] = a.triangles;
    answer[11] = a.points;
    answer[12] = a.components;
    answer[13] = a.trials;
    answer[14] = a.words;
}

// Kept (1): C's functions return this number, and the definition `up_to_4` in the clause is one on numbers.
// The number of a call whose answer is too short: the first of 1 to 3 and 14 whose condition holds, otherwise 4.
pub fn short_answer(points: &[f64], triangles: &[u32], joints: &[u32], a: Stated, n: Room) -> usize
    ensures { (l : Lent) → Lends l points.now triangles.now joints.now n → result ≡ up_to_4 (first_refusal (asked a) l) }
{
    let k = number_or_0(refusal(points, triangles, joints, a, n));
    if k == 1 {
        return 1;
    }
    if k == 2 {
        return 2;
    }
    if k == 3 {
        return 3;
    }
    if k == 14 {
        return 14;
    }
    4
}
