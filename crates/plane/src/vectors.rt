// Vectors and lengths.
ghost use Rattle.std.specs.Prelude.{◌≡◌};
ghost use Rattle.definition.specs.Call.{point_at};
ghost use Rattle.definition.specs.Plane.{flat, from_to, dot, norm, over, dist, size_mismatch};
ghost use Rattle.plane.specs.Points.{Within, node};
ghost use Rattle.plane.specs.Vectors.{vec};

use crate::limits::{MISMATCH_HIGH, MISMATCH_LOW};
use crate::points::{Spot, at};

// A direction, or the difference of two nodes.
#[derive(Clone, Copy)]
pub struct Vec {
    pub dx: f64,
    pub dy: f64,
}

// ---- vectors

// The dot product.
pub fn dot(d: Vec, n: Vec) -> f64
    ensures { result ≡ dot (vec d) (vec n) }
{
    d.dx * n.dx + d.dy * n.dy
}

// A vector's length.
pub fn norm(d: Vec) -> f64
    ensures { result ≡ norm (vec d) }
{
    root::sqrt(d.dx * d.dx + d.dy * d.dy)
}

// The vector divided by a number.
pub fn over(d: Vec, n: f64) -> Vec
    ensures { vec result ≡ over (vec d) n }
{
    Vec {
        dx: d.dx / n,
        dy: d.dy / n,
    }
}

// ---- spots

// The vector from a to b.
pub fn between(a: Spot, b: Spot) -> Vec
    ensures { vec result ≡ from_to (node a) (node b) }
{
    Vec {
        dx: b.x - a.x,
        dy: b.y - a.y,
    }
}

// The distance of two spots, the same from either.
pub fn dist_of(a: Spot, b: Spot) -> f64
    ensures { (result ≡ dist (node a) (node b)) × (result ≡ dist (node b) (node a)) }
{
    norm(between(b, a))
}

// ---- nodes of the lent points

// The vector from a to b.
pub fn from_to(q: &[f64], a: usize, b: usize) -> Vec
    requires { Within q.now a × Within q.now b }
    ensures { let p = point_at q.now in vec result ≡ from_to (p a) (p b) }
{
    between(at(q, a), at(q, b))
}

// The length of the edge from a to b.
pub fn length(q: &[f64], a: usize, b: usize) -> f64
    requires { Within q.now a × Within q.now b }
    ensures { let p = point_at q.now in (result ≡ dist (p b) (p a)) × (result ≡ dist (p a) (p b)) }
{
    dist_of(at(q, b), at(q, a))
}

// The distance of the node a and the point x y, the same from either.
pub fn dist(q: &[f64], a: usize, x: f64, y: f64) -> f64
    requires { Within q.now a }
    ensures { let p = point_at q.now in (result ≡ dist (p a) (flat x y)) × (result ≡ dist (flat x y) (p a)) }
{
    dist_of(at(q, a), Spot { x, y })
}

// The length of a front edge is off the target.
pub fn size_mismatch(span: f64, target: f64) -> bool
    ensures { result ≡ size_mismatch span target }
{
    if span < MISMATCH_LOW * target {
        return true;
    }
    span > MISMATCH_HIGH * target
}
