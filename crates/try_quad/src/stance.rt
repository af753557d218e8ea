// How an attempt stands: the target and the normal into the triangle.
ghost use Rattle.std.specs.Prelude.{◌≡◌};
ghost use Rattle.definition.specs.Numbers.{Settings};
ghost use Rattle.definition.specs.Attempt.{target_of, inward_normal};
ghost use Rattle.plane.specs.Vectors.{vec};

use edge_candidates::wishes::TINY_LENGTH;
use plane::vectors::Vec;

// The size, or the edge's own length where there is no size.
pub fn target_of(size: f64, span: f64) -> f64
    ensures { (settings : Settings) → settings.size ≡ size → result ≡ target_of settings span }
{
    if size > TINY_LENGTH {
        return size;
    }
    span
}

// The direction of a vector of this length, turned a quarter left.
pub fn inward_normal(tangent: Vec, long: f64) -> Vec
    ensures { vec result ≡ inward_normal (vec tangent) long }
{
    Vec {
        dx: -tangent.dy / long,
        dy: tangent.dx / long,
    }
}
