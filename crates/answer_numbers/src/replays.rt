// The lengths of a replay's lists, and the number of one without room for them.
ghost use Rattle.std.specs.Prelude.{◌≡◌, cond, length, ◌≤◌, Ok};
ghost use Rattle.definition.specs.Call.{over_limit, onto};
ghost use Rattle.definition.specs.Replay.{as_asked};
ghost use Rattle.retrace.specs.Replaying.{answered};
ghost use Rattle.answer_numbers.specs.Replays.{told_for, lengths_listed, lengths_put};

use refusals::{Refusal, Room, number_or_0, refusal, standard};
use retrace::Told;
use retrace::ending::Replayed;

// Numbers of a replay: the lengths of its four lists.
pub const LENGTHS: usize = 4;

// The lengths of the lists come to the front of the slice.
fn write_lengths(answer: &mut [usize], r: Replayed)
    requires { 4 ≤ length answer.old }
    ensures { answer.new ≡ onto (lengths_listed (answered (Ok r))) answer.old }
{
    answer[0] = r.quads;
    answer[1] = r.triangles;
    answer[2] = r.points;
    answer[3] = r.components;
}

// The number of a replay is returned, 0 where the whole trace was replayed.
// Then its lengths come to the front of the slice; a refusal leaves the slice as it was.
pub fn put_replayed(answer: &mut [usize], r: Result<Replayed, Refusal>) -> usize
    requires { 4 ≤ length answer.old }
    ensures { (result ≡ (answered r).refusal) × (answer.new ≡ lengths_put (answered r) answer.old) }
{
    match r {
        Err(k) => k.into(),
        Ok(n) => {
            write_lengths(answer, n);
            0
        }
    }
}

// The number of a replay whose answer is too short: 1 where that condition holds, otherwise 4.
pub fn short_replay(points: &[f64], triangles: &[u32], told: Told, n: Room) -> usize
    ensures { result ≡ cond (over_limit (as_asked (told_for told.given told.capacity told.count told.slots told.words))) 1 4 }
{
    let stated = standard(told.given, told.capacity, told.count, told.slots, 0.0, 0);
    let none = [0u32; 0];
    let k = number_or_0(refusal(points, triangles, &none, stated, n));
    if k == 1 {
        return 1;
    }
    4
}
