// The first triangle that is thin.
ghost use Rattle.std.specs.Prelude.{◌≡◌, true, ℕ};
ghost use Rattle.definition.specs.Floats.{◌≼◌, 0·5};
ghost use Rattle.definition.specs.Exact.{CosineUpTo};
ghost use Rattle.definition.specs.Account.{All};
ghost use Rattle.exact.specs.Sides.{SameAs};
ghost use Rattle.offenders.specs.Cells.{Tested};
ghost use Rattle.offenders.specs.Triangles.{NearThree, corners_of, FirstThin};

use crate::lent_cells::{Three, three_of};
use exact_tests::corners::{Corner, CosineLimit};
use exact_tests::limits::cosine_up_to;

// The limit that asks nothing.
const ANY: f64 = 1.0;

// The cosines of the triangle's three corners are at most t plus 1e-9.
fn blunt(q: Three, t: CosineLimit) -> bool
    requires { NearThree q }
    ensures { SameAs (result ≡ true) (All (CosineUpTo t.cosine) (corners_of q)) }
{
    let Three { n0, n1, n2 } = q;
    let first = Corner {
        before: n2,
        here: n0,
        after: n1,
    };
    let second = Corner {
        before: n0,
        here: n1,
        after: n2,
    };
    let third = Corner {
        before: n1,
        here: n2,
        after: n0,
    };
    if !cosine_up_to(first, t) {
        return false;
    }
    if !cosine_up_to(second, t) {
        return false;
    }
    cosine_up_to(third, t)
}

// The first of n triangles with a corner whose cosine is above t plus 1e-9; None where there is none,
// or t is not below 1.
pub fn first_thin(points: &[f64], triangles: &[u32], n: usize, t: f64) -> Option<usize>
    requires { ((m : ℕ) × Tested 3 m n points.now triangles.now) × ((0·5 ≼ t) ≡ true) }
    ensures { FirstThin points.now triangles.now n t result }
{
    if !(t < ANY) {
        return None;
    }
    let limit = CosineLimit { cosine: t };
    for i in 0..n {
        let q = three_of(points, triangles, i);
        if !blunt(q, limit) {
            return Some(i);
        }
    }
    None
}
