// The rows of the sheet, quad after quad.
ghost use Rattle.std.specs.Prelude.{◌≡◌, ◌+◌, ◌*◌, ◌≤◌, ◌<◌, length, set};
ghost use Rattle.definition.specs.Account.{measures};
ghost use Rattle.definition.specs.Call.{first_points, quad_at};
ghost use Rattle.plane.specs.Measures.{metrics_of_enum};
ghost use Rattle.sheet.specs.Promise.{listed, Corners, Readable, Fills, Line};

use crate::answers::Sheet;
use plane::metrics::{Metrics, quad_metrics};
use sheet_steps::Worst;
use sheet_steps::places::place;
use sheet_steps::values::{worst_cosine, worst_jacobian};

// The metrics of quad i.
fn metrics_at(points: &[f64], quads: &[u32], given: usize, i: usize) -> Option<Metrics>
    requires { (3 * given ≤ length points.now) × (8 * i + 3 < length quads.now) × Corners given quads.now i }
    ensures { metrics_of_enum result ≡ measures (first_points given points.now) (quad_at quads.now i) }
{
    quad_metrics(
        points,
        quads[8 * i] as usize,
        quads[8 * i + 1] as usize,
        quads[8 * i + 2] as usize,
        quads[8 * i + 3] as usize,
    )
}

// Two values stand in line i.
fn put(out: &mut [f64], i: usize, sj: f64, k: f64)
    requires { 2 * i + 1 < length out.old }
    ensures { out.new ≡ set (set out.old (2 * i) sj) (2 * i + 1) k }
{
    out[2 * i] = sj;
    out[2 * i + 1] = k;
}

// The metrics of a quad stand in line i, two zeros where it has none.
fn put_line(out: &mut [f64], i: usize, m: Option<Metrics>)
    requires { 2 * i + 1 < length out.old }
    ensures { Line (metrics_of_enum m) i out.old out.new }
{
    match m {
        None => {
            put(out, i, 0.0, 0.0);
        }
        Some(t) => {
            put(out, i, t.jacobian, t.cosine);
        }
    }
}

// The sheet of a list that no test refuses.
pub fn fill(points: &[f64], quads: &[u32], out: &mut [f64], given: usize, count: usize) -> Sheet
    requires { Readable (listed given count points.now quads.now out.old) }
    ensures { Fills (listed given count points.now quads.now out.old) result out.new }
{
    let mut counts = [0; 11];
    let mut jacobian: Worst = None;
    let mut cosine: Worst = None;
    for i in 0..count {
        let m = metrics_at(points, quads, given, i);
        put_line(out, i, m);
        let at = place(m);
        counts[at] += 1;
        jacobian = worst_jacobian(jacobian, i, m);
        cosine = worst_cosine(cosine, i, m);
    }
    Sheet {
        counts,
        jacobian,
        cosine,
    }
}
