// The first quad that is not convex, and the first with a sharp corner.
ghost use Rattle.std.specs.Prelude.{◌≡◌, true, ℕ};
ghost use Rattle.definition.specs.Exact.{TurnsLeft, CosineUpTo};
ghost use Rattle.definition.specs.Account.{All};
ghost use Rattle.exact.specs.Sides.{SameAs};
ghost use Rattle.offenders.specs.Cells.{Tested, Limit, NearFour, corners_of, FirstFolded, FirstSharp};

use crate::lent_cells::{Four, four_of};
use exact_tests::corners::{Corner, CosineLimit};
use exact_tests::limits::cosine_up_to;
use exact_tests::turns::turns_left;

// The quad turns left at its four corners.
fn convex(q: Four) -> bool
    requires { NearFour q }
    ensures { SameAs (result ≡ true) (All TurnsLeft (corners_of q)) }
{
    let Four { n0, n1, n2, n3 } = q;
    let first = Corner {
        before: n3,
        here: n0,
        after: n1,
    };
    let second = Corner {
        before: n0,
        here: n1,
        after: n2,
    };
    let third = Corner {
        before: n1,
        here: n2,
        after: n3,
    };
    let fourth = Corner {
        before: n2,
        here: n3,
        after: n0,
    };
    if !turns_left(first) {
        return false;
    }
    if !turns_left(second) {
        return false;
    }
    if !turns_left(third) {
        return false;
    }
    turns_left(fourth)
}

// The cosines of the quad's four corners are at most t plus 1e-9.
fn blunt(q: Four, t: CosineLimit) -> bool
    requires { NearFour q }
    ensures { SameAs (result ≡ true) (All (CosineUpTo t.cosine) (corners_of q)) }
{
    let Four { n0, n1, n2, n3 } = q;
    let first = Corner {
        before: n3,
        here: n0,
        after: n1,
    };
    let second = Corner {
        before: n0,
        here: n1,
        after: n2,
    };
    let third = Corner {
        before: n1,
        here: n2,
        after: n3,
    };
    let fourth = Corner {
        before: n2,
        here: n3,
        after: n0,
    };
    if !cosine_up_to(first, t) {
        return false;
    }
    if !cosine_up_to(second, t) {
        return false;
    }
    if !cosine_up_to(third, t) {
        return false;
    }
    cosine_up_to(fourth, t)
}

// The first of n quads that does not turn left at its four corners; None where all do.
pub fn first_folded(points: &[f64], quads: &[u32], n: usize) -> Option<usize>
    requires { (m : ℕ) × Tested 4 m n points.now quads.now }
    ensures { FirstFolded points.now quads.now n result }
{
    for i in 0..n {
        let q = four_of(points, quads, i);
        if !convex(q) {
            return Some(i);
        }
    }
    None
}

// The first of n quads with a corner whose cosine is above t plus 1e-9; None where there is none.
pub fn first_sharp(points: &[f64], quads: &[u32], n: usize, t: f64) -> Option<usize>
    requires { ((m : ℕ) × Tested 4 m n points.now quads.now) × Limit t }
    ensures { FirstSharp points.now quads.now n t result }
{
    let limit = CosineLimit { cosine: t };
    for i in 0..n {
        let q = four_of(points, quads, i);
        if !blunt(q, limit) {
            return Some(i);
        }
    }
    None
}
