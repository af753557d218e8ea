// The test whether the sides of given triangles and of a result's cells balance.
// Each triangle is turned upright as it is read; no turned copy is stored.
ghost use Rattle.std.specs.Prelude.{◌+◌, ◌*◌, ◌≤◌, ◌<◌, length};
ghost use Rattle.definition.specs.Cells.{new_tri, tri_nodes};
ghost use Rattle.balance.specs.Promise.{Answers, given_sides, result_sides};
ghost use Rattle.balance.specs.Places.{Placed};
ghost use Rattle.uprights.specs.Promise.{upright_at};
ghost use Rattle.uprights.specs.Sides.{upright_words, Corner, Puttable, Readable};

use crate::runs_left;
use balance::places::put_sides;
use balance::runs::first_uneven;
use sorting::sort_digits;

// Times that the sides' numbers, of 41 binary digits, are dealt out and back.
const TIMES: usize = 3;

// The three places from `at` on get the sides of the triangle a, b, c, upright.
fn put_upright(points: &[f64], a: u32, b: u32, c: u32, turned: bool, w: &mut [u32], at: usize)
    requires { Corner points.now a × Corner points.now b × Corner points.now c × (2 * (at + 3) ≤ length w.old) }
    ensures { Placed (tri_nodes (upright_at points.now (new_tri a b c))) 3 1 turned w.old w.new at }
{
    if runs_left(points, a, b, c) {
        let t = [a, b, c];
        put_sides(&t, 3, 1, turned, w, at);
        return;
    }
    let t = [a, c, b];
    put_sides(&t, 3, 1, turned, w, at);
}

// The places from `at` on get the sides of n triangles, upright.
fn put_uprights(points: &[f64], triangles: &[u32], n: usize, turned: bool, w: &mut [u32], at: usize)
    requires { Puttable points.now triangles.now n w.old at }
    ensures { Placed (upright_words points.now triangles.now n) 3 n turned w.old w.new at }
{
    for i in 0..n {
        let a = triangles[3 * i];
        let b = triangles[3 * i + 1];
        let c = triangles[3 * i + 2];
        put_upright(points, a, b, c, turned, w, at + 3 * i);
    }
}

// Whether the sides of the given triangles, upright by the given points, and those of the quads and of the leftover
// triangles, upright by the points, balance between every two nodes.
// The answer is the least edge where they do not, its lesser node first.
// The work slice w has four words for each side.
pub fn balance_upright(
    given_points: &[f64],
    given: &[u32],
    count: usize,
    points: &[f64],
    quads: &[u32],
    quad_count: usize,
    left: &[u32],
    left_count: usize,
    w: &mut [u32],
) -> Option<(usize, usize)>
    requires { Readable given_points.now given.now count points.now quads.now quad_count left.now left_count w.old }
    ensures { Answers (given_sides (upright_words given_points.now given.now count) count) (result_sides quads.now quad_count (upright_words points.now left.now left_count) left_count) result }
{
    let a = 3 * count;
    let b = a + 4 * quad_count;
    let n = b + 3 * left_count;
    put_uprights(given_points, given, count, false, w, 0);
    put_sides(quads, 4, quad_count, true, w, a);
    put_uprights(points, left, left_count, true, w, b);
    sort_digits(w, n, TIMES);
    first_uneven(w, n)
}
