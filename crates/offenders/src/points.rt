// The first given point that is not the point of its number, bit for bit; a NaN is a NaN.
ghost use Rattle.std.specs.Prelude.{◌≡◌, ◌+◌, ◌*◌, ◌≤◌, ◌<◌, length, get_or};
ghost use Rattle.definition.specs.Floats.{0·0};
ghost use Rattle.definition.specs.Call.{point_at, first_points};
ghost use Rattle.accept.specs.Accept.{same_bits, same_point, moved};
ghost use Rattle.offenders.specs.Search.{Finds};

use words::bits_of;

// Kept (4): the definition's `same_bits` goes by bits, where `==` of doubles has 0.0 equal -0.0 and no NaN equal itself.
// Number k has the same bits in both slices.
fn same_bits(given: &[f64], points: &[f64], k: usize) -> bool
    requires { (k < length given.now) × (k < length points.now) }
    ensures { result ≡ same_bits (get_or given.now k 0·0) (get_or points.now k 0·0) }
{
    bits_of(given[k]) == bits_of(points[k])
}

// Kept (4): the definition's `same_point` goes by bits, which no derived equality of points does.
// Point i is the same in both slices.
fn same_point(given: &[f64], points: &[f64], i: usize) -> bool
    requires { (3 * i + 2 < length given.now) × (3 * i + 2 < length points.now) }
    ensures { result ≡ same_point (point_at given.now i) (point_at points.now i) }
{
    if !same_bits(given, points, 3 * i) {
        return false;
    }
    if !same_bits(given, points, 3 * i + 1) {
        return false;
    }
    same_bits(given, points, 3 * i + 2)
}

// Kept (6): C's callers lend longer slices, and the clause's `first_points` has the number beside the list.
// The first of n given points that is not the point of its number among m points; None where all are.
pub fn first_moved(given: &[f64], n: usize, points: &[f64], m: usize) -> Option<usize>
    requires { (3 * n ≤ length given.now) × (3 * m ≤ length points.now) }
    ensures { Finds n (moved 0 (first_points n given.now) (first_points m points.now)) result }
{
    for i in 0..n {
        if i >= m {
            return Some(i);
        }
        if !same_point(given, points, i) {
            return Some(i);
        }
    }
    None
}
