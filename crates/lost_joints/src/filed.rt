// The edges of cells as ascending numbers in places of two words, and the search for one of them.
ghost use Rattle.std.specs.Prelude.{◌≡◌, ◌+◌, ◌*◌, ◌<◌, min, max};
ghost use Rattle.sorting.specs.Places.{key_at};
ghost use Rattle.balance.specs.Runs.{Ordered};
ghost use Rattle.balance.specs.Codes.{edge};
ghost use Rattle.lost_joints.specs.Filed.{has_key, cell_edges, Fileable, Filed, Sought};

use balance::places::put_sides;
use sorting::{key_at, sort_digits};
use words::wide;

// Times that the numbers, of 41 binary digits, are dealt out and back.
const TIMES: usize = 3;

// What a node's 20 binary digits count to.
const NODES: usize = 1048576;

// The edges of the first q quads and t triangles, ascending, over four words of w for each.
pub fn file_edges(quads: &[u32], q: usize, left: &[u32], t: usize, w: &mut [u32])
    requires { Fileable quads.now q left.now t w.old }
    ensures { Filed (cell_edges quads.now q left.now t) (4 * q + 3 * t) w.new }
{
    let b = 4 * q;
    let n = b + 3 * t;
    put_sides(quads, 4, q, false, w, 0);
    put_sides(left, 3, t, false, w, b);
    sort_digits(w, n, TIMES);
}

// Kept (1): a place among n ascending ones, as `partition_point` has it: n is where a number above all would stand.
// The first of n ascending places whose number is k or more; n where there is none.
fn seek(w: &[u32], n: usize, k: usize) -> usize
    requires { Ordered w.now n }
    ensures { Sought (key_at w.now) n k result }
{
    let (places, _) = w[..2 * n].as_chunks::<2>();
    places.partition_point(|p| key_at(p, 0) < k)
}

// Whether the edge between a and b is among those of n places.
pub fn has_edge(w: &[u32], n: usize, a: u32, b: u32) -> bool
    requires { Ordered w.now n × (a < 1048576) × (b < 1048576) }
    ensures { result ≡ has_key (key_at w.now) n (edge (min a b) (max a b)) }
{
    let u = wide(a).min(wide(b));
    let v = wide(a).max(wide(b));
    let k = 2 * (u * NODES + v);
    let i = seek(w, n, k);
    i < n && key_at(w, i) < k + 2
}
