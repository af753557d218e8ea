// The lengths of a quad's sides, and a vector's length from the length of its double.
ghost use Rattle.std.specs.Prelude.{◌≡◌, true};
ghost use Rattle.definition.specs.Plane.{dist, norm};
ghost use Rattle.rounding.specs.Halves.{HalfOf};
ghost use Rattle.plane.specs.Measures.{LengthsOf};
ghost use Rattle.plane.specs.Points.{node};
ghost use Rattle.plane.specs.Vectors.{vec};

use crate::floats::abs;
use crate::points::Spot;
use crate::vectors::{Vec, dist_of, norm};

// A number of a size between these can be doubled and squared: nothing underflows and nothing overflows.
const SMALLEST: f64 = 1e-150;

const LARGEST: f64 = 1e150;

// The lengths of the sides of a quad a b c d.
#[derive(Clone, Copy)]
pub struct Lengths {
    pub ab: f64,
    pub bc: f64,
    pub cd: f64,
    pub da: f64,
}

// The lengths of the sides of the quad a b c d, by four roots.
pub fn lengths_of(a: Spot, b: Spot, c: Spot, d: Spot) -> Lengths
    ensures { LengthsOf result (node a) (node b) (node c) (node d) }
{
    Lengths {
        ab: dist_of(a, b),
        bc: dist_of(b, c),
        cd: dist_of(c, d),
        da: dist_of(d, a),
    }
}

// The lengths of the sides of the quad a b c d, of which two are handed in, by two roots.
pub fn lengths_from(a: Spot, b: Spot, c: Spot, d: Spot, ab: f64, da: f64) -> Lengths
    ensures { ab ≡ dist (node a) (node b) → da ≡ dist (node d) (node a) → LengthsOf result (node a) (node b) (node c) (node d) }
{
    Lengths {
        ab,
        bc: dist_of(b, c),
        cd: dist_of(c, d),
        da,
    }
}

// x is half of u, and nothing is lost in their squares.
fn half_of(x: f64, u: f64) -> bool
    ensures { result ≡ true → HalfOf x u }
{
    if x + x == u {
        if x == 0.0 {
            return true;
        }
        let size = abs(x);
        if SMALLEST <= size {
            return size <= LARGEST;
        }
    }
    false
}

// The length of v: half of the length of d, which is handed in, where d is the double of v, and a root otherwise.
pub fn norm_by(v: Vec, d: Vec, long: f64) -> f64
    ensures { long ≡ norm (vec d) → result ≡ norm (vec v) }
{
    if half_of(v.dx, d.dx) {
        if half_of(v.dy, d.dy) {
            return 0.5 * long;
        }
    }
    norm(v)
}
