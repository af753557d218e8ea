// A quad's metrics, and what a trial asks of them.
ghost use Rattle.std.specs.Prelude.{◌≡◌, true, false, not, ◌&&◌, [], ◌∷◌, map};
ghost use Rattle.std.specs.Float.{inf};
ghost use Rattle.definition.specs.Call.{point_at};
ghost use Rattle.definition.specs.Floats.{◌≺◌, ◌≼◌, finite, greater, 0·0};
ghost use Rattle.definition.specs.Lists.{any};
ghost use Rattle.definition.specs.Numbers.{Quality};
ghost use Rattle.definition.specs.Plane.{Node, dist};
ghost use Rattle.definition.specs.Metrics.{corners, corner_of, angle_of, not_convex, clamp, cosine, largest_cosine, quad_metrics, passes, score};
ghost use Rattle.plane.specs.Measures.{LengthsOf, SidesOf, folded, metrics_of_enum};
ghost use Rattle.plane.specs.Points.{Within, node};

use crate::area::twice_area;
use crate::floats::{finite, greater, lesser};
use crate::jacobian::min_scaled_jacobian;
use crate::lengths::{Lengths, lengths_from, lengths_of};
use crate::points::{Spot, at};
use crate::sides::{any_of, cross_of, tiny};
use crate::vectors::{between, dot};

// The least scaled Jacobian and the largest cosine of a quad's corners.
#[derive(Clone, Copy)]
pub struct Metrics {
    pub jacobian: f64,
    pub cosine: f64,
}

// At each corner of a quad a b c d the product of the lengths of its two sides.
#[derive(Clone, Copy)]
pub struct Sides {
    pub at_a: f64,
    pub at_b: f64,
    pub at_c: f64,
    pub at_d: f64,
}

// ---- the tests

// The corner at b does not turn left by more than the tolerance.
fn not_convex(a: Spot, b: Spot, c: Spot) -> bool
    ensures { result ≡ not_convex (corner_of (node a) (node b) (node c)) }
{
    tiny(cross_of(a, b, c))
}

// Some corner of the quad does not turn left by more than the tolerance.
fn bent(a: Spot, b: Spot, c: Spot, d: Spot) -> bool
    ensures { result ≡ any not_convex (corners (node a) (node b) (node c) (node d)) }
{
    any_of(
        not_convex(d, a, b),
        not_convex(a, b, c),
        not_convex(b, c, d),
        not_convex(c, d, a),
    )
}

// The area or some corner of the quad is zero or negative.
fn folded(a: Spot, b: Spot, c: Spot, d: Spot) -> bool
    ensures { result ≡ folded (node a) (node b) (node c) (node d) }
{
    if tiny(twice_area(a, b, c, d)) {
        return true;
    }
    bent(a, b, c, d)
}

// The product of the lengths of two neighbouring sides, at each of the four corners.
fn sides_of(l: Lengths) -> Sides
    ensures { (a b c d : Node) → LengthsOf l a b c d → SidesOf result a b c d }
{
    Sides {
        at_a: l.da * l.ab,
        at_b: l.ab * l.bc,
        at_c: l.bc * l.cd,
        at_d: l.cd * l.da,
    }
}

// One of the products is zero.
fn flat_side(s: Sides) -> bool
    ensures { result ≡ any (λ t. t ≼ 0·0) (s.at_a ∷ s.at_b ∷ s.at_c ∷ s.at_d ∷ []) }
{
    any_of(s.at_a <= 0.0, s.at_b <= 0.0, s.at_c <= 0.0, s.at_d <= 0.0)
}

// ---- the cosines

// The number brought into the range from -1 to 1.
fn clamp(c: f64) -> f64
    ensures { result ≡ clamp c }
{
    if c < -1.0 {
        return -1.0;
    }
    if c > 1.0 {
        return 1.0;
    }
    c
}

// The cosine of the angle at b, clamped; sides is the product of the lengths of its two sides.
fn cosine(a: Spot, b: Spot, c: Spot, sides: f64) -> f64
    ensures { sides ≡ (angle_of (corner_of (node a) (node b) (node c))).sides → result ≡ cosine (angle_of (corner_of (node a) (node b) (node c))) }
{
    clamp(dot(between(b, a), between(b, c)) / sides)
}

// The largest of four, and of equal ones the first.
fn most(a: f64, b: f64, c: f64, d: f64) -> f64
    ensures { result ≡ greater (greater (greater (greater (inf true) a) b) c) d }
{
    greater(greater(greater(greater(-1.0 / 0.0, a), b), c), d)
}

// The largest cosine of the four corners.
fn largest_cosine(a: Spot, b: Spot, c: Spot, d: Spot, s: Sides) -> f64
    ensures { SidesOf s (node a) (node b) (node c) (node d) → result ≡ largest_cosine (map angle_of (corners (node a) (node b) (node c) (node d))) }
{
    most(
        cosine(d, a, b, s.at_a),
        cosine(a, b, c, s.at_b),
        cosine(b, c, d, s.at_c),
        cosine(c, d, a, s.at_d),
    )
}

// ---- the metrics

// The metrics of the quad a b c d, whose sides' lengths are handed in;
// neither its area nor a corner is zero or negative.
fn measured(a: Spot, b: Spot, c: Spot, d: Spot, l: Lengths) -> Option<Metrics>
    ensures { LengthsOf l (node a) (node b) (node c) (node d) → folded (node a) (node b) (node c) (node d) ≡ false → metrics_of_enum result ≡ quad_metrics (node a) (node b) (node c) (node d) }
{
    let s = sides_of(l);
    if flat_side(s) {
        return None;
    }
    Some(Metrics {
        jacobian: min_scaled_jacobian(a, b, c, d, l),
        cosine: largest_cosine(a, b, c, d, s),
    })
}

// The metrics of the quad a b c d.
pub fn quad_metrics_of(a: Spot, b: Spot, c: Spot, d: Spot) -> Option<Metrics>
    ensures { metrics_of_enum result ≡ quad_metrics (node a) (node b) (node c) (node d) }
{
    if folded(a, b, c, d) {
        return None;
    }
    measured(a, b, c, d, lengths_of(a, b, c, d))
}

// The metrics of the quad a b c d, the lengths of whose sides a b and d a are handed in.
fn quad_metrics_from(a: Spot, b: Spot, c: Spot, d: Spot, ab: f64, da: f64) -> Option<Metrics>
    ensures { ab ≡ dist (node a) (node b) → da ≡ dist (node d) (node a) → metrics_of_enum result ≡ quad_metrics (node a) (node b) (node c) (node d) }
{
    if folded(a, b, c, d) {
        return None;
    }
    measured(a, b, c, d, lengths_from(a, b, c, d, ab, da))
}

// The metrics of the quad of four nodes: none where the area, a corner or a side is zero or negative.
pub fn quad_metrics(q: &[f64], a: usize, b: usize, c: usize, d: usize) -> Option<Metrics>
    requires { Within q.now a × Within q.now b × Within q.now c × Within q.now d }
    ensures { let p = point_at q.now in metrics_of_enum result ≡ quad_metrics (p a) (p b) (p c) (p d) }
{
    quad_metrics_of(at(q, a), at(q, b), at(q, c), at(q, d))
}

// The metrics of the quad of four nodes, the lengths of whose sides a b and d a are handed in.
pub fn quad_metrics_by(
    q: &[f64],
    a: usize,
    b: usize,
    c: usize,
    d: usize,
    ab: f64,
    da: f64,
) -> Option<Metrics>
    requires { Within q.now a × Within q.now b × Within q.now c × Within q.now d }
    ensures { let p = point_at q.now in ab ≡ dist (p a) (p b) → da ≡ dist (p d) (p a) → metrics_of_enum result ≡ quad_metrics (p a) (p b) (p c) (p d) }
{
    quad_metrics_from(at(q, a), at(q, b), at(q, c), at(q, d), ab, da)
}

// ---- a trial's test and score

// Both numbers are finite, the scaled Jacobian is not below its least and the cosine not above its largest.
fn good(sj: f64, k: f64, least: f64, most: f64) -> bool
    ensures { result ≡ (finite sj && finite k && not (sj ≺ least) && not (most ≺ k)) }
{
    if finite(sj) {
        if finite(k) {
            if sj < least {
                return false;
            }
            return !(k > most);
        }
    }
    false
}

// The quad passes: its scaled Jacobian is at least `least`, and its largest cosine at most `most`.
pub fn passes(m: Option<Metrics>, least: f64, most: f64) -> bool
    ensures { (y : Quality) → y.least_jacobian ≡ least → y.largest_cosine ≡ most → result ≡ passes y (metrics_of_enum m) }
{
    match m {
        None => false,
        Some(t) => good(t.jacobian, t.cosine, least, most),
    }
}

// The lesser of the scaled Jacobian and the sine of the least angle.
pub fn score(m: Option<Metrics>) -> f64
    ensures { result ≡ score (metrics_of_enum m) }
{
    match m {
        None => 0.0 / 0.0,
        Some(t) => lesser(t.jacobian, root::sqrt(1.0 - t.cosine * t.cosine)),
    }
}
