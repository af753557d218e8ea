// The scaled Jacobian at the corner a of the quads a b d c: the node d across it has no weight there.
ghost use Rattle.std.specs.Prelude.{◌≡◌, true};
ghost use Rattle.definition.specs.Call.{point_at};
ghost use Rattle.definition.specs.Metrics.{weights, c0, d0, d1, weighted, scaled};
ghost use Rattle.plane.specs.Points.{Within, node};
ghost use Rattle.plane.specs.Vectors.{vec};
ghost use Rattle.trials.specs.Floors.{begun, Neutral, AllNeutral, first_corner};
ghost use Rattle.trials.specs.Ranked.{Far};

use plane::points::{Spot, at};
use plane::vectors::{Vec, norm};
use words::bits_of;

// The side nodes at one end: so many from a place on.
#[derive(Clone, Copy)]
pub struct Part {
    pub at: usize,
    pub count: usize,
}

// ---- sums

// The sum of the first column up to its third node.
fn first_begun(a: f64, b: f64, d: f64) -> f64
    ensures { result ≡ begun (weights (d0 c0)) a b d }
{
    0.0 + -0.5 * a + 0.5 * b + 0.0 * d
}

// That of the second.
fn second_begun(a: f64, b: f64, d: f64) -> f64
    ensures { result ≡ begun (weights (d1 c0)) a b d }
{
    0.0 + -0.5 * a + -0.0 * b + 0.0 * d
}

// The sum of the first column.
fn first_sum(a: f64, b: f64, d: f64, c: f64) -> f64
    ensures { result ≡ weighted (weights (d0 c0)) a b d c }
{
    first_begun(a, b, d) + -0.0 * c
}

// That of the second.
fn second_sum(a: f64, b: f64, d: f64, c: f64) -> f64
    ensures { result ≡ weighted (weights (d1 c0)) a b d c }
{
    second_begun(a, b, d) + 0.5 * c
}

// ---- a node that changes nothing

// x and y are one float.
fn is_same(x: f64, y: f64) -> bool
    ensures { result ≡ true → x ≡ y }
{
    bits_of(x) == bits_of(y)
}

// Every sum is with d what it is with a in its place.
fn is_neutral(a: Spot, b: Spot, d: Spot) -> bool
    ensures { result ≡ true → Neutral (node a) (node b) (node d) }
{
    if !is_same(first_begun(a.x, b.x, d.x), first_begun(a.x, b.x, a.x)) {
        return false;
    }
    if !is_same(first_begun(a.y, b.y, d.y), first_begun(a.y, b.y, a.y)) {
        return false;
    }
    if !is_same(second_begun(a.x, b.x, d.x), second_begun(a.x, b.x, a.x)) {
        return false;
    }
    is_same(second_begun(a.y, b.y, d.y), second_begun(a.y, b.y, a.y))
}

// For each side node d at b, every sum is with d what it is with a in its place.
pub fn all_neutral(w: &[u32], q: &[f64], far: Part, a: usize, b: usize) -> bool
    requires far { Far w.now q.now far.at far.count }
    requires within { Within q.now a × Within q.now b }
    ensures { result ≡ true → AllNeutral w.now q.now far.at far.count a b }
{
    let u = at(q, a);
    let v = at(q, b);
    for j in 0..far.count {
        let d = w[far.at + j] as usize;
        if !is_neutral(u, v, at(q, d)) {
            return false;
        }
    }
    true
}

// ---- the corner

// The determinant of two columns over the product of their lengths.
fn scaled(j: Vec, k: Vec) -> f64
    ensures { result ≡ scaled (vec j) (vec k) }
{
    let lengths = norm(j) * norm(k);
    if lengths > 0.0 {
        return (j.dx * k.dy - k.dx * j.dy) / lengths;
    }
    0.0 / 0.0
}

// The scaled Jacobian with a in the place of d.
pub fn corner_at(q: &[f64], a: usize, b: usize, c: usize) -> f64
    requires { Within q.now a × Within q.now b × Within q.now c }
    ensures { let p = point_at q.now in result ≡ first_corner (p a) (p b) (p a) (p c) }
{
    let u = at(q, a);
    let v = at(q, b);
    let t = at(q, c);
    let low = Vec {
        dx: first_sum(u.x, v.x, u.x, t.x),
        dy: first_sum(u.y, v.y, u.y, t.y),
    };
    let left = Vec {
        dx: second_sum(u.x, v.x, u.x, t.x),
        dy: second_sum(u.y, v.y, u.y, t.y),
    };
    scaled(low, left)
}
