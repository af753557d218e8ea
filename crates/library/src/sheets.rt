// The quality sheet for programs in C and Rust.
ghost use Rattle.sheet.specs.Lent.{Put};
ghost use Rattle.sheet.specs.Promise.{listed};

use sheet::lent::put_sheet;

// Kept (1): C takes the answer as a number.
// The sheet of a list of quads: its rows in `out`, its numbers in the answer.
// The number of the refusal is returned, 0 where there is none.
#[unsafe(no_mangle)]
pub extern "C" fn sedgepick_sheet(
    points: &[f64],
    quads: &[u32],
    out: &mut [f64],
    given: usize,
    count: usize,
    answer: &mut [usize],
) -> usize
    ensures { Put
        (listed given count points.now quads.now out.old)
        answer.old result answer.new out.new }
{
    match put_sheet(points, quads, out, given, count, answer) {
        Ok(()) => 0,
        Err(refusal) => refusal.into(),
    }
}
