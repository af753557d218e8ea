// The quality sheet of a run, from what the run answered and left in its slices.
#![tactic(auto)]

ghost use Rattle.std.specs.Prelude.{◌≡◌, ℕ, ◌*◌, ◌≤◌, length};
ghost use Rattle.definition.specs.Call.{Asked, Lent};
ghost use Rattle.definition.specs.Sheet.{call};
ghost use Rattle.sheet.specs.Promise.{listed, Returns};
ghost use Rattle.mesher.specs.Promise.{answered};
ghost use Rattle.run_sheets.specs.Runs.{FinishedRun, Filed};

use mesher::Answer;
use refusals::Refusal;
use sheet::answers::Sheet;
use sheet::sheet;

// The sheet of the quads of a run, whose answer is handed in with the points and quads that it left.
// Each quad's scaled Jacobian and largest cosine stand in `out` then.
// A refused run has no quads, and neither has its sheet.
// No precondition; of a finished run the sheet is filed, whenever `out` has two numbers for each quad.
pub fn sheet_of_run(
    points: &[f64],
    quads: &[u32],
    out: &mut [f64],
    answer: Result<Answer, Refusal>,
) -> Result<Sheet, Refusal>
    ensures returns { let r = answered answer in Returns (call (listed r.points r.quads points.now quads.now out.old)) result out.new }
    ensures by_index { (most : ℕ) (a : Asked) (l left : Lent) → FinishedRun most a l (answered answer) left → left.points ≡ points.now → left.quads ≡ quads.now → 2 * (answered answer).quads ≤ length out.old → Filed a.quality result }
{
    match answer {
        Ok(a) => sheet(points, quads, out, a.points, a.quads),
        Err(_) => sheet(points, quads, out, 0, 0),
    }
}
