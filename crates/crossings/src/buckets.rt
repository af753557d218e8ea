// Buckets of coordinates, and limits beyond which an edge does not overlap a segment in bucket range.
ghost use Rattle.std.specs.Prelude.{◌≡◌, true};
ghost use Rattle.definition.specs.Floats.{◌⊘◌};
ghost use Rattle.definition.specs.Flips.{ranges_meet};
ghost use Rattle.definition.specs.Root.{floor};
ghost use Rattle.definition.specs.Call.{point_at};
ghost use Rattle.plane.specs.Points.{Within};
ghost use Rattle.crossings.specs.Cross.{axis_meets};
ghost use Rattle.crossings.specs.Limits.{InOrder, Before, After, IsLimits};

use plane::floats::{greater, lesser};
use plane::points::at;

// The limits of a segment.
// An edge overlaps the segment in bucket range only where some end lies right of x0, some left of x1,
// some above y0 and some below y1.
#[derive(Clone, Copy)]
pub struct Limits {
    pub x0: f64,
    pub x1: f64,
    pub y0: f64,
    pub y1: f64,
}

// ---- meeting

// The bucket of a coordinate.
fn bucket_key(bucket: f64, c: f64) -> f64
    ensures { result ≡ floor (c ⊘ bucket) }
{
    root::floor(c / bucket)
}

// The range of p and q meets that of r and s.
fn ranges_meet(p: f64, q: f64, r: f64, s: f64) -> bool
    ensures { result ≡ ranges_meet p q r s }
{
    if lesser(p, q) <= greater(r, s) {
        return lesser(r, s) <= greater(p, q);
    }
    false
}

// The range of the buckets of p and q meets that of the buckets of r and s.
pub fn axis_meets(bucket: f64, p: f64, q: f64, r: f64, s: f64) -> bool
    ensures { result ≡ axis_meets bucket p q r s }
{
    ranges_meet(
        bucket_key(bucket, p),
        bucket_key(bucket, q),
        bucket_key(bucket, r),
        bucket_key(bucket, s),
    )
}

// ---- limits

// The bucket of x lies before that of y, where buckets have a width.
fn in_order(bucket: f64, x: f64, y: f64) -> bool
    ensures { result ≡ true → InOrder bucket x y }
{
    if bucket > 0.0 {
        return bucket_key(bucket, x) < bucket_key(bucket, y);
    }
    false
}

// A number such that whatever is at most this number lies in buckets before those of x and y.
// It is a NaN, to which nothing compares, where a step of one bucket does not leave those buckets.
fn below(bucket: f64, x: f64, y: f64) -> f64
    ensures { Before bucket x y result }
{
    let t = lesser(x, y) - bucket;
    if !in_order(bucket, t, x) {
        return 0.0 / 0.0;
    }
    if !in_order(bucket, t, y) {
        return 0.0 / 0.0;
    }
    t
}

// A number such that whatever is at least this number lies in buckets behind those of x and y.
// It is a NaN, to which nothing compares, where a step of one bucket does not leave those buckets.
// Kept (2): it differs from `below` in the bound, the step and the order of what it compares.
// One function over these takes all three, and its two clauses are Before and After still.
fn above(bucket: f64, x: f64, y: f64) -> f64
    ensures { After bucket x y result }
{
    let t = greater(x, y) + bucket;
    if !in_order(bucket, x, t) {
        return 0.0 / 0.0;
    }
    if !in_order(bucket, y, t) {
        return 0.0 / 0.0;
    }
    t
}

// The limits of the segment u-v.
pub fn limits_of(q: &[f64], bucket: f64, u: usize, v: usize) -> Limits
    requires { Within q.now u × Within q.now v }
    ensures { IsLimits bucket (point_at q.now u) (point_at q.now v) result }
{
    let a = at(q, u);
    let b = at(q, v);
    Limits {
        x0: below(bucket, a.x, b.x),
        x1: above(bucket, a.x, b.x),
        y0: below(bucket, a.y, b.y),
        y1: above(bucket, a.y, b.y),
    }
}
