// A walk along the front, by the first edge at each node that is in no loop yet.
ghost use Rattle.std.specs.Prelude.{◌≡◌, List, ℕ, suc, ◌<◌, length};
ghost use Rattle.definition.specs.Plane.{Edge};
ghost use Rattle.definition.specs.Loops.{walk};
ghost use Rattle.loops.specs.Trace.{unused, seek, Ready, AtNode, Found, FarTo, CanPlace, PlaceTo, CanWalk, WalkTo};

use cells::layout::Layout;
use words::wide;

// The edge behind c at the node v, which is an end of c.
fn next_at(w: &[u32], lay: Layout, c: usize, v: usize) -> usize
    requires { (n : ℕ) × (k : ℕ) × (l : ℕ) × (es : List Edge) × AtNode w.now lay.slots lay.points n k c l v es }
    ensures { (n k l : ℕ) (es : List Edge) → AtNode w.now lay.slots lay.points n k c l v es → result ≡ seek es v (suc c) l }
{
    let from = lay.front_links_at();
    if wide(w[lay.front_u_at() + c]) == v {
        return wide(w[from + 2 * c]);
    }
    wide(w[from + (2 * c + 1)])
}

// The first edge at v that is in no loop, of k edges, where there is one.
fn first_left(w: &[u32], lay: Layout, k: usize, v: usize) -> Option<usize>
    requires { (n : ℕ) × (es : List Edge) × Ready w.now lay.slots lay.points n k es × (v < n) }
    ensures { (n : ℕ) (es : List Edge) → Ready w.now lay.slots lay.points n k es → v < n → Found w.now lay.slots lay.points k v result es }
{
    let used = lay.front_used_at();
    let mut c = wide(w[lay.heads_at() + v]);
    while c < k {
        if w[used + c] == 0 {
            return Some(c);
        }
        c = next_at(w, lay, c, v);
    }
    None
}

// The other end of the edge c, seen from v.
fn far(w: &[u32], lay: Layout, c: usize, v: usize) -> usize
    requires { (n : ℕ) × (k : ℕ) × (l : ℕ) × (es : List Edge) × AtNode w.now lay.slots lay.points n k c l v es }
    ensures { (n k l : ℕ) (es : List Edge) → AtNode w.now lay.slots lay.points n k c l v es → FarTo n c v result es }
{
    let u = wide(w[lay.front_u_at() + c]);
    if u == v {
        return wide(w[lay.front_v_at() + c]);
    }
    u
}

// The edge c comes to place b of the loops.
pub fn place(w: &mut [u32], lay: Layout, b: usize, c: usize)
    requires { (n : ℕ) × (k : ℕ) × (a : ℕ) × (es : List Edge) × (path : List Edge) × CanPlace w.old lay.slots lay.points n k a b c es path }
    ensures { (n k a : ℕ) (es path : List Edge) → CanPlace w.old lay.slots lay.points n k a b c es path → PlaceTo w.old w.new lay.slots lay.points n k a b c es path }
{
    w[lay.front_used_at() + c] = 1;
    w[lay.order_at() + b] = c as u32;
}

// From the node `here` by the first edge in no loop, until the walk comes to `start` or there is no such edge.
// The edges come to the places from b on; the answer is the place behind them.
pub fn walk(w: &mut [u32], lay: Layout, k: usize, b: usize, start: usize, here: usize) -> usize
    requires { (n : ℕ) × (a : ℕ) × (es : List Edge) × (path : List Edge) × CanWalk w.old lay.slots lay.points n k a b here es path }
    ensures { (n a : ℕ) (es path : List Edge) → CanWalk w.old lay.slots lay.points n k a b here es path → WalkTo w.old w.new lay.slots lay.points n k a b result es (walk (length (unused w.old lay.slots lay.points es 0 k)) start here path (unused w.old lay.slots lay.points es 0 k)) }
{
    let mut count = b;
    let mut end = here;
    let mut left = first_left(w, lay, k, end);
    while let Some(c) = left {
        place(w, lay, count, c);
        count += 1;
        end = far(w, lay, c, end);
        if end == start {
            return count;
        }
        left = first_left(w, lay, k, end);
    }
    count
}
