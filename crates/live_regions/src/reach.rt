// What the square of a distance tells of a reach, so that the root need not be taken.
ghost use Rattle.std.specs.Prelude.{◌≡◌, not};
ghost use Rattle.std.proofs.Props.{props};
ghost use Rattle.definition.specs.Floats.{◌≺◌};
ghost use Rattle.definition.specs.Plane.{flat, dist};
ghost use Rattle.plane.specs.Points.{node};
ghost use Rattle.plane.specs.Vectors.{vec};
ghost use Rattle.live_regions.specs.Squares.{square, WithinReach, BeyondReach};

use plane::points::Spot;
use plane::vectors::{Vec, between, norm};

// A distance is tried as beyond the reach at this many times the reach.
const FARTHER: f64 = 1.001;

// A distance is tried as not beyond the reach at this many times the reach.
const NEARER: f64 = 0.999;

// What is not farther than r from the point `at`.
// A distance is not beyond r where its square is below `near`, and is where its square is beyond `far`.
#[derive(Clone, Copy)]
pub struct Reach {
    pub at: Spot,
    pub r: f64,
    pub near: f64,
    pub far: f64,
    ghost near_within: { WithinReach r near } by { Prim.hlevel props },
    ghost far_beyond: { BeyondReach r far } by { Prim.hlevel props },
}

// The square of a vector's length, whose root is the length.
pub fn square(d: Vec) -> f64
    ensures { result ≡ square (vec d) }
{
    d.dx * d.dx + d.dy * d.dy
}

// A number below which no square is that of a distance beyond r; minus infinity where none is found.
// Kept (1): minus infinity is such a number, below which nothing is, so one test serves; an Option is a second test.
fn near_square(r: f64) -> f64
    ensures { WithinReach r result }
{
    let d = Vec {
        dx: r * NEARER,
        dy: 0.0,
    };
    if norm(d) > r {
        return -1.0 / 0.0;
    }
    square(d)
}

// A number beyond which each square is that of a distance beyond r; infinity where none is found.
// Kept (1): infinity is such a number, beyond which nothing is, so one test serves; an Option is a second test.
pub fn far_square(r: f64) -> f64
    ensures { BeyondReach r result }
{
    let d = Vec {
        dx: r * FARTHER,
        dy: 0.0,
    };
    if norm(d) > r {
        return square(d);
    }
    1.0 / 0.0
}

impl Reach {
    pub fn new(at: Spot, r: f64) -> Reach
        ensures { (result.at ≡ at) × (result.r ≡ r) }
    {
        Reach {
            at,
            r,
            near: near_square(r),
            far: far_square(r),
        }
    }

    // The point o is not farther; the root is taken only where the squares do not tell.
    pub fn has(self, o: Spot) -> bool
        ensures { result ≡ not (self.r ≺ dist (node o) (node self.at)) }
    {
        let d = between(self.at, o);
        let z = square(d);
        if z < self.near {
            return true;
        }
        if z > self.far {
            return false;
        }
        !(norm(d) > self.r)
    }
}
