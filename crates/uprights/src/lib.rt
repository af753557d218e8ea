// Triangles read upright: each as it is where it runs counterclockwise, else with its second and third nodes exchanged.
// The first that has no area, and (`sides`) the least edge whose sides do not balance.
#![tactic(auto)]

pub mod sides;

ghost use Rattle.std.specs.Prelude.{◌≡◌};
ghost use Rattle.definition.specs.Cells.{new_tri};
ghost use Rattle.accept.specs.Accept.{above};
ghost use Rattle.uprights.specs.Promise.{turn_at, upright_at, Near, Readable, FirstFlat};

use exact_tests::corners::Corner;
use exact_tests::turns::turns_left;
use plane::points::at;
use words::wide;

// Whether the triangle a, b, c runs counterclockwise, exactly.
pub fn runs_left(points: &[f64], a: u32, b: u32, c: u32) -> bool
    requires { Near points.now a × Near points.now b × Near points.now c }
    ensures { result ≡ above (turn_at points.now (new_tri a b c)) }
{
    let here = at(points, wide(a));
    let after = at(points, wide(b));
    let before = at(points, wide(c));
    turns_left(Corner {
        before,
        here,
        after,
    })
}

// Whether the triangle a, b, c runs counterclockwise once it is upright: it has an area.
fn has_area(points: &[f64], a: u32, b: u32, c: u32) -> bool
    requires { Near points.now a × Near points.now b × Near points.now c }
    ensures { result ≡ above (turn_at points.now (upright_at points.now (new_tri a b c))) }
{
    runs_left(points, a, b, c) || runs_left(points, a, c, b)
}

// The first of n triangles that has no area; None where all have one.
pub fn first_flat(points: &[f64], triangles: &[u32], n: usize) -> Option<usize>
    requires { Readable points.now triangles.now n }
    ensures { FirstFlat points.now triangles.now n result }
{
    for i in 0..n {
        let a = triangles[3 * i];
        let b = triangles[3 * i + 1];
        let c = triangles[3 * i + 2];
        if !has_area(points, a, b, c) {
            return Some(i);
        }
    }
    None
}
