// The order of points and of sorted places.
ghost use Rattle.std.specs.Prelude.{◌≡◌, ◌+◌, ◌*◌, ◌<◌, ◌≤◌, length};
ghost use Rattle.definition.specs.Call.{point_at, first_points};
ghost use Rattle.std.specs.Ordering.{is_eq};
ghost use Rattle.filing.specs.Filing.{order_numbers, order_floats, order_points, order_lists};
ghost use Rattle.sorting.specs.Places.{keys};

use sorting::key_at;
use std::cmp::Ordering;

// The order of two coordinates.
fn order_floats(x: f64, y: f64) -> Ordering
    ensures { result ≡ order_floats x y }
{
    x.partial_cmp(&y).unwrap_or(Ordering::Equal)
}

// Two coordinates are the same.
// Kept (4): `==` differs from it: a NaN is below no number and above none, and so the same here.
fn same_floats(x: f64, y: f64) -> bool
    ensures { result ≡ is_eq (order_floats x y) }
{
    !(x < y || y < x)
}

// Point i of two slices is the same.
// Kept (4): of the three coordinates z is not read, so that it is no equality of slices.
fn same_point(a: &[f64], b: &[f64], i: usize) -> bool
    requires { (3 * i + 2 < length a.now) × (3 * i + 2 < length b.now) }
    ensures { result ≡ is_eq (order_points (point_at a.now i) (point_at b.now i)) }
{
    same_floats(a[3 * i], b[3 * i]) && same_floats(a[3 * i + 1], b[3 * i + 1])
}

// The order of point i of two slices: by x, then by y.
fn order_point(a: &[f64], b: &[f64], i: usize) -> Ordering
    requires { (3 * i + 2 < length a.now) × (3 * i + 2 < length b.now) }
    ensures { result ≡ order_points (point_at a.now i) (point_at b.now i) }
{
    let x = order_floats(a[3 * i], b[3 * i]);
    if x.is_eq() {
        return order_floats(a[3 * i + 1], b[3 * i + 1]);
    }
    x
}

// The order of the first n points of two slices.
// Kept (6): the C interface lends slices that may be longer than what the mesh has of them.
pub fn order_points(a: &[f64], b: &[f64], n: usize) -> Ordering
    requires { (3 * n ≤ length a.now) × (3 * n ≤ length b.now) }
    ensures { result ≡ order_lists order_points (first_points n a.now) (first_points n b.now) }
{
    for i in 0..n {
        if !same_point(a, b, i) {
            return order_point(a, b, i);
        }
    }
    Ordering::Equal
}

// The order of the first n places of two work slices.
// Kept (6): a work slice holds as many places behind these, which sorting takes.
pub fn order_keys(a: &[u32], b: &[u32], n: usize) -> Ordering
    requires { (2 * n ≤ length a.now) × (2 * n ≤ length b.now) }
    ensures { result ≡ order_lists order_numbers (keys a.now 0 n) (keys b.now 0 n) }
{
    for i in 0..n {
        let x = key_at(a, i);
        let y = key_at(b, i);
        if x != y {
            return x.cmp(&y);
        }
    }
    Ordering::Equal
}
