// The quality sheet of a list of quads, in lent memory.
#![tactic(auto)]

pub mod answers;
mod conditions;
pub mod lent;
mod rows;

ghost use Rattle.definition.specs.Sheet.{call};
ghost use Rattle.sheet.specs.Promise.{listed, Returns};

use crate::answers::Sheet;
use crate::conditions::check;
use crate::rows::fill;
use refusals::Refusal;

// The sheet of the first `count` quads over the first `given` points.
// Each quad's scaled Jacobian and largest cosine stand in `out` then; a refusal leaves it as it was.
// No precondition: the definition's call says what comes back.
pub fn sheet(
    points: &[f64],
    quads: &[u32],
    out: &mut [f64],
    given: usize,
    count: usize,
) -> Result<Sheet, Refusal>
    ensures { Returns (call (listed given count points.now quads.now out.old)) result out.new }
{
    check(points, quads, out, given, count)?;
    Ok(fill(points, quads, out, given, count))
}
