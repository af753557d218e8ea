// The scaled Jacobian of the bilinear map at the four reference corners.
ghost use Rattle.std.specs.Prelude.{◌≡◌, false, Float};
ghost use Rattle.std.specs.Float.{inf};
ghost use Rattle.definition.specs.Floats.{◌⊕◌, ◌⊗◌, lesser, 0·25, 1·0};
ghost use Rattle.definition.specs.Plane.{norm};
ghost use Rattle.definition.specs.Metrics.{corner, d0, d1, weights, weighted, scaled, min_scaled_jacobian};
ghost use Rattle.plane.specs.Columns.{column};
ghost use Rattle.plane.specs.Measures.{LengthsOf};
ghost use Rattle.plane.specs.Points.{node};
ghost use Rattle.plane.specs.Vectors.{vec};

use crate::floats::lesser;
use crate::lengths::{Lengths, norm_by};
use crate::points::Spot;
use crate::vectors::{Vec, between};

// The derivative of the shape function of the node whose reference corner has l along the
// direction and m across it, at t across.
fn weight(l: f64, m: f64, t: f64) -> f64
    ensures { result ≡ 0·25 ⊗ l ⊗ (1·0 ⊕ m ⊗ t) }
{
    0.25 * l * (1.0 + m * t)
}

// The sum over the four nodes weighted along the first direction, at t across it.
fn first_sum(t: f64, a: f64, b: f64, c: f64, d: f64) -> f64
    ensures { (z : Float) → result ≡ weighted (weights (d0 (corner z t))) a b c d }
{
    0.0 + weight(-1.0, -1.0, t) * a
        + weight(1.0, -1.0, t) * b
        + weight(1.0, 1.0, t) * c
        + weight(-1.0, 1.0, t) * d
}

// The sum over the four nodes weighted along the second direction, at t across it.
fn second_sum(t: f64, a: f64, b: f64, c: f64, d: f64) -> f64
    ensures { (z : Float) → result ≡ weighted (weights (d1 (corner t z))) a b c d }
{
    0.0 + weight(-1.0, -1.0, t) * a
        + weight(-1.0, 1.0, t) * b
        + weight(1.0, 1.0, t) * c
        + weight(1.0, -1.0, t) * d
}

// The first column of the Jacobian, at t across.
fn first_column(t: f64, a: Spot, b: Spot, c: Spot, d: Spot) -> Vec
    ensures { (z : Float) → vec result ≡ column (weights (d0 (corner z t))) (node a) (node b) (node c) (node d) }
{
    Vec {
        dx: first_sum(t, a.x, b.x, c.x, d.x),
        dy: first_sum(t, a.y, b.y, c.y, d.y),
    }
}

// Kept (2): its sums differ in more than a name, and one function that takes the sum is no plainer than two lines.
// The second column of the Jacobian, at t across.
fn second_column(t: f64, a: Spot, b: Spot, c: Spot, d: Spot) -> Vec
    ensures { (z : Float) → vec result ≡ column (weights (d1 (corner t z))) (node a) (node b) (node c) (node d) }
{
    Vec {
        dx: second_sum(t, a.x, b.x, c.x, d.x),
        dy: second_sum(t, a.y, b.y, c.y, d.y),
    }
}

// The determinant of two columns over the product of their lengths, which are handed in.
fn scaled(j: Vec, k: Vec, j_long: f64, k_long: f64) -> f64
    ensures { j_long ≡ norm (vec j) → k_long ≡ norm (vec k) → result ≡ scaled (vec j) (vec k) }
{
    let lengths = j_long * k_long;
    if lengths > 0.0 {
        return (j.dx * k.dy - k.dx * j.dy) / lengths;
    }
    0.0 / 0.0
}

// The least of four numbers, passing over a NaN.
fn least(a: f64, b: f64, c: f64, d: f64) -> f64
    ensures { result ≡ lesser (lesser (lesser (lesser (inf false) a) b) c) d }
{
    lesser(lesser(lesser(lesser(1.0 / 0.0, a), b), c), d)
}

// The least scaled Jacobian of the quad a b c d, whose sides' lengths are handed in.
// Two corners share each column, and a column is half of a side.
pub fn min_scaled_jacobian(a: Spot, b: Spot, c: Spot, d: Spot, sides: Lengths) -> f64
    ensures { LengthsOf sides (node a) (node b) (node c) (node d) → result ≡ min_scaled_jacobian (node a) (node b) (node c) (node d) }
{
    let low = first_column(-1.0, a, b, c, d);
    let high = first_column(1.0, a, b, c, d);
    let left = second_column(-1.0, a, b, c, d);
    let right = second_column(1.0, a, b, c, d);
    let low_long = norm_by(low, between(a, b), sides.ab);
    let high_long = norm_by(high, between(d, c), sides.cd);
    let left_long = norm_by(left, between(a, d), sides.da);
    let right_long = norm_by(right, between(b, c), sides.bc);
    least(
        scaled(low, left, low_long, left_long),
        scaled(low, right, low_long, right_long),
        scaled(high, right, high_long, right_long),
        scaled(high, left, high_long, left_long),
    )
}
