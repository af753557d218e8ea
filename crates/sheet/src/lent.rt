// The sheet in lent memory, for programs in C and Rust: eleven counts, then the quads that have the worst of each kind.
ghost use Rattle.std.specs.Prelude.{◌≡◌, ◌≤◌, length};
ghost use Rattle.definition.specs.Call.{onto};
ghost use Rattle.refusals.specs.Numbers.{number, number_or_0};
ghost use Rattle.sheet.specs.Lent.{numbers, short_number, Put};
ghost use Rattle.sheet.specs.Promise.{listed, sheet_in};

use crate::answers::Sheet;
use crate::conditions::{MOST_POINTS, MOST_QUADS};
use crate::sheet;
use refusals::Refusal;
use sheet_steps::values::quad_of;

// Numbers of a sheet.
const NUMBERS: usize = 13;

// The numbers of a sheet come to the front of the slice.
fn write(answer: &mut [usize], s: Sheet, count: usize)
    requires { (13 ≤ length answer.old) × (length s.counts ≡ 11) }
    ensures { answer.new ≡ onto (numbers count (sheet_in s)) answer.old }
{
    let counts = s.counts;
    let jacobian = s.jacobian;
    let cosine = s.cosine;
    answer[..11].copy_from_slice(&counts);
    answer[11] = quad_of(jacobian, count);
    answer[12] = quad_of(cosine, count);
}

// The refusal of a call whose answer is too short, unless it is over a limit.
fn short(given: usize, count: usize) -> Refusal
    ensures { number result ≡ short_number given count }
{
    if count > MOST_QUADS {
        return Refusal::OverLimit;
    }
    if given > MOST_POINTS {
        return Refusal::OverLimit;
    }
    Refusal::TooShort
}

// The counts come to the front of the answer, and behind them the quads that have the worst scaled Jacobian
// and the worst cosine, `count` where there is none; their values stand in `out`.
// A refusal leaves all slices as they were.
pub fn put_sheet(
    points: &[f64],
    quads: &[u32],
    out: &mut [f64],
    given: usize,
    count: usize,
    answer: &mut [usize],
) -> Result<(), Refusal>
    ensures { Put
        (listed given count points.now quads.now out.old)
        answer.old (number_or_0 result) answer.new out.new }
{
    if answer.len() < NUMBERS {
        return Err(short(given, count));
    }
    let s = sheet(points, quads, out, given, count)?;
    write(answer, s, count);
    Ok(())
}
