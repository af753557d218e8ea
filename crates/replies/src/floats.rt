// Floats from the bits that were read.
ghost use Rattle.std.specs.Prelude.{◌≡◌, ◌≤◌, length};
ghost use Rattle.replies.specs.Tells.{filled};

use words::float_of;

// The floats of the first n patterns, at the front of `points`.
// Kept (6): both slices are longer than what was read, and `filled` promises that the rest of `points` stays.
pub fn fill(bits: &[u64], n: usize, points: &mut [f64])
    requires { (n ≤ length bits.now) × (n ≤ length points.old) }
    ensures { points.new ≡ filled n bits.now points.old }
{
    for i in 0..n {
        points[i] = float_of(bits[i]);
    }
}
