// The test whether each joint that a given triangle has is an edge of the result's cells.
#![tactic(auto)]

pub mod filed;

ghost use Rattle.std.specs.Prelude.{◌≡◌, ◌≤◌, ◌<◌, min, max, length, take, drop};
ghost use Rattle.sorting.specs.Places.{key_at};
ghost use Rattle.balance.specs.Runs.{Ordered};
ghost use Rattle.definition.specs.Call.{joint_at};
ghost use Rattle.lost_joints.specs.Promise.{stands_in, Searchable, Names, Readable, Answers};

use crate::filed::{file_edges, has_edge};

// The edge between a and b is not among the given ones, or is among the result's.
fn stands(given: &[u32], g: usize, res: &[u32], m: usize, a: u32, b: u32) -> bool
    requires { Ordered given.now g × Ordered res.now m × (a < 1048576) × (b < 1048576) }
    ensures { result ≡ stands_in (key_at given.now) g (key_at res.now) m (min a b, max a b) }
{
    !has_edge(given, g, a, b) || has_edge(res, m, a, b)
}

// The first of n joints that does not stand; None where all do.
fn first_lost(
    given: &[u32],
    g: usize,
    res: &[u32],
    m: usize,
    joints: &[u32],
    n: usize,
) -> Option<usize>
    requires { Searchable given.now g res.now m joints.now n }
    ensures { Names (λ i. stands_in (key_at given.now) g (key_at res.now) m (joint_at joints.now i)) n result }
{
    for i in 0..n {
        let a = joints[2 * i];
        let b = joints[2 * i + 1];
        if !stands(given, g, res, m, a, b) {
            return Some(i);
        }
    }
    None
}

// The first of n joints that does not stand, where the given edges are filed before word `at`,
// and the result's from there on.
fn lost_in(w: &[u32], at: usize, g: usize, m: usize, joints: &[u32], n: usize) -> Option<usize>
    requires { Searchable (take at w.now) g (drop at w.now) m joints.now n × (at ≤ length w.now) }
    ensures { Names (λ i. stands_in (key_at (take at w.now)) g (key_at (drop at w.now)) m (joint_at joints.now i)) n result }
{
    first_lost(&w[..at], g, &w[at..], m, joints, n)
}

// The first of n joints that is an edge of one of the first `count` given triangles, and of no cell of the result.
// It is found by the sides of all of them, sorted.
fn search_lost(
    given: &[u32],
    count: usize,
    quads: &[u32],
    quad_count: usize,
    left: &[u32],
    left_count: usize,
    joints: &[u32],
    n: usize,
    w: &mut [u32],
) -> Option<usize>
    requires { Readable given.now count quads.now quad_count left.now left_count joints.now n w.old }
    ensures { Answers given.now count quads.now quad_count left.now left_count joints.now n result }
{
    let g = 3 * count;
    let m = 4 * quad_count + 3 * left_count;
    let at = 4 * g;
    file_edges(given, 0, given, count, &mut w[..at]);
    file_edges(quads, quad_count, left, left_count, &mut w[at..]);
    lost_in(w, at, g, m, joints, n)
}

// The first of n joints that is an edge of one of the first `count` given triangles, and of no cell of the result.
// None is the answer where none is lost.
// The work slice w has four words for each side.
pub fn lost_joint(
    given: &[u32],
    count: usize,
    quads: &[u32],
    quad_count: usize,
    left: &[u32],
    left_count: usize,
    joints: &[u32],
    n: usize,
    w: &mut [u32],
) -> Option<usize>
    requires { Readable given.now count quads.now quad_count left.now left_count joints.now n w.old }
    ensures { Answers given.now count quads.now quad_count left.now left_count joints.now n result }
{
    if n == 0 {
        return None;
    }
    search_lost(
        given, count, quads, quad_count, left, left_count, joints, n, w,
    )
}
