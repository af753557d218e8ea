// Areas of triangles and quads.
ghost use Rattle.std.specs.Prelude.{◌≡◌};
ghost use Rattle.definition.specs.Call.{point_at};
ghost use Rattle.definition.specs.Floats.{◌⊘◌, abs, 2·0};
ghost use Rattle.definition.specs.Plane.{cross, shoelace, twice_area, quad_area};
ghost use Rattle.plane.specs.Points.{Within, node};

use crate::floats::abs;
use crate::points::{Spot, at};
use crate::sides::cross;

// The term of one side in twice the area.
fn shoelace(a: Spot, b: Spot) -> f64
    ensures { result ≡ shoelace (node a) (node b) }
{
    a.x * b.y - b.x * a.y
}

// Twice the quad's area, positive where the nodes run counterclockwise.
pub fn twice_area(a: Spot, b: Spot, c: Spot, d: Spot) -> f64
    ensures { result ≡ twice_area (node a) (node b) (node c) (node d) }
{
    0.0 + shoelace(a, b) + shoelace(b, c) + shoelace(c, d) + shoelace(d, a)
}

// A quad's area, with its sign.
pub fn quad_area(q: &[f64], a: usize, b: usize, c: usize, d: usize) -> f64
    requires { Within q.now a × Within q.now b × Within q.now c × Within q.now d }
    ensures { let p = point_at q.now in result ≡ quad_area (p a) (p b) (p c) (p d) }
{
    twice_area(at(q, a), at(q, b), at(q, c), at(q, d)) / 2.0
}

// A triangle's area, without its sign.
pub fn tri_area(q: &[f64], a: usize, b: usize, c: usize) -> f64
    requires { Within q.now a × Within q.now b × Within q.now c }
    ensures { let p = point_at q.now in result ≡ abs (cross (p a) (p b) (p c)) ⊘ 2·0 }
{
    abs(cross(q, a, b, c)) / 2.0
}
