// The conditions of one list.
// Those of triangles and of points are tested as before a run of the mesher.
ghost use Rattle.std.specs.Prelude.{◌≡◌, ◌*◌, ◌≤◌, length};
ghost use Rattle.definition.specs.Cells.{new_quad};
ghost use Rattle.accept.specs.Call.{quad_twice};
ghost use Rattle.accept_refusals.specs.Stated.{tris_unknown, tris_repeated, quads_unknown, quads_repeated, points_far};

use words::wide;

// Kept (6): C's callers lend longer slices, and the clause's `tris_unknown` has the number beside the list.
// A node of n triangles is none of m points.
pub fn unknown_in(triangles: &[u32], n: usize, m: usize) -> bool
    requires { 3 * n ≤ length triangles.now }
    ensures { result ≡ tris_unknown m n triangles.now }
{
    let a = refusals::standard(m, m, n, n, 0.0, 0);
    refusals::unknown_node(triangles, a)
}

// Kept (6): C's callers lend longer slices, and the clause's `tris_repeated` has the number beside the list.
// One of n triangles has a node twice.
pub fn repeated_in(triangles: &[u32], n: usize) -> bool
    requires { 3 * n ≤ length triangles.now }
    ensures { result ≡ tris_repeated n triangles.now }
{
    let a = refusals::standard(0, 0, n, n, 0.0, 0);
    refusals::repeated_node(triangles, a)
}

// Kept (6): C's callers lend longer slices, and the clause's `points_far` has the number beside the list.
// One of m points is outside.
pub fn far_in(points: &[f64], m: usize) -> bool
    requires { 3 * m ≤ length points.now }
    ensures { result ≡ points_far m points.now }
{
    let a = refusals::standard(m, m, 0, 0, 0.0, 0);
    refusals::far_point(points, a)
}

// Kept (6): C's callers lend longer slices, and the clause's `quads_unknown` has the number beside the list.
// A corner of n quads is none of m points.
pub fn unknown_corner(quads: &[u32], n: usize, m: usize) -> bool
    requires { 4 * n ≤ length quads.now }
    ensures { result ≡ quads_unknown m n quads.now }
{
    for i in 0..4 * n {
        if wide(quads[i]) >= m {
            return true;
        }
    }
    false
}

// Two of the four nodes are one.
fn quad_twice(n0: u32, n1: u32, n2: u32, n3: u32) -> bool
    ensures { result ≡ quad_twice (new_quad n0 n1 n2 n3) }
{
    if n0 == n1 {
        return true;
    }
    if n0 == n2 {
        return true;
    }
    if n0 == n3 {
        return true;
    }
    if n1 == n2 {
        return true;
    }
    if n1 == n3 {
        return true;
    }
    n2 == n3
}

// Kept (6): C's callers lend longer slices, and the clause's `quads_repeated` has the number beside the list.
// One of n quads has a node twice.
pub fn repeated_corner(quads: &[u32], n: usize) -> bool
    requires { 4 * n ≤ length quads.now }
    ensures { result ≡ quads_repeated n quads.now }
{
    for i in 0..n {
        let k = 4 * i;
        if quad_twice(quads[k], quads[k + 1], quads[k + 2], quads[k + 3]) {
            return true;
        }
    }
    false
}
