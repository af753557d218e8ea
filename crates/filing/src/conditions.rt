// The refusals 1, 4, 5, 6 and 7 of a mesh: they read it, and touch nothing.
ghost use Rattle.std.specs.Prelude.{◌≡◌};
ghost use Rattle.refusals.specs.Numbers.{number_or_0};
ghost use Rattle.refusals.specs.Refusals.{number_of};
ghost use Rattle.filing.specs.Filing.{refused};
ghost use Rattle.filing.specs.Promise.{mesh};

use refusals::{Refusal, far_point, repeated_node, standard, unknown_node};

// Triangles, and given points, that a call may state.
const MOST_GIVEN: usize = 4096;

// u32 of work for a triangle.
const TRIANGLE_WORDS: usize = 4;

// The first refusal whose condition holds.
pub fn check(
    points: &[f64],
    given: usize,
    triangles: &[u32],
    count: usize,
    work: &[u32],
) -> Result<(), Refusal>
    ensures { number_or_0 result ≡ number_of (refused (mesh given count points.now triangles.now work.now)) }
{
    if count > MOST_GIVEN {
        return Err(Refusal::OverLimit);
    }
    if given > MOST_GIVEN {
        return Err(Refusal::OverLimit);
    }
    if points.len() < 3 * given {
        return Err(Refusal::TooShort);
    }
    if triangles.len() < 3 * count {
        return Err(Refusal::TooShort);
    }
    if work.len() < TRIANGLE_WORDS * count {
        return Err(Refusal::TooShort);
    }
    let a = standard(given, given, count, count, 0.0, 0);
    if unknown_node(triangles, a) {
        return Err(Refusal::UnknownNode);
    }
    if repeated_node(triangles, a) {
        return Err(Refusal::RepeatedNode);
    }
    if far_point(points, a) {
        return Err(Refusal::FarPoint);
    }
    Ok(())
}
