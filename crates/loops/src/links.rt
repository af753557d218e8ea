// The lists of the front's edges at each node, ascending by number.
ghost use Rattle.std.specs.Prelude.{◌≡◌, List, ℕ, suc, ◌+◌, ◌≤◌, length};
ghost use Rattle.definition.specs.Plane.{Edge};
ghost use Rattle.loops.specs.Loop.{CanLoop};
ghost use Rattle.loops.specs.Link.{Filled, CanLink, linked, Linking, LinkTo, ListTo};

use cells::layout::Layout;
use words::wide;

// The n words from a on become x.
// Kept (6): alike by chance, a and n are a part of the lent memory, and no length of the slice.
fn fill(w: &mut [u32], a: usize, n: usize, x: u32)
    requires { a + n ≤ length w.old }
    ensures { Filled w.old w.new a n x }
{
    w[a..a + n].fill(x);
}

// The edge i comes to the front of the list of node x; l is its link there.
fn link(w: &mut [u32], lay: Layout, x: usize, l: usize, i: usize)
    requires { CanLink w.old lay.slots lay.points x l i }
    ensures { w.new ≡ linked w.old lay.slots lay.points x l i }
{
    let at = lay.heads_at() + x;
    let first = w[at];
    w[lay.front_links_at() + l] = first;
    w[at] = i as u32;
}

// The edge i comes to the front of the lists of both its ends.
fn link_edge(w: &mut [u32], lay: Layout, i: usize)
    requires { (n : ℕ) × (k : ℕ) × (m : ℕ) × (es : List Edge) × Linking w.old lay.slots lay.points n k es (i + 1) m }
    ensures { (n k m : ℕ) (es : List Edge) → Linking w.old lay.slots lay.points n k es (i + 1) m → LinkTo w.old w.new lay.slots lay.points n k es i (suc m) }
{
    let u = wide(w[lay.front_u_at() + i]);
    let v = wide(w[lay.front_v_at() + i]);
    link(w, lay, u, 2 * i, i);
    link(w, lay, v, 2 * i + 1, i);
}

// All k edges come to the lists of their ends.
fn link_all(w: &mut [u32], lay: Layout, k: usize)
    requires { (n : ℕ) × (es : List Edge) × Linking w.old lay.slots lay.points n k es k 0 }
    ensures { (n : ℕ) (es : List Edge) → Linking w.old lay.slots lay.points n k es k 0 → LinkTo w.old w.new lay.slots lay.points n k es 0 k }
{
    for i in (0..k).rev() {
        link_edge(w, lay, i);
    }
}

// The lists of the k edges at n nodes, none of the edges in a loop.
pub fn list_edges(w: &mut [u32], lay: Layout, n: usize, k: usize)
    requires { (es : List Edge) × CanLoop w.old lay.slots lay.points n k es }
    ensures { (es : List Edge) → CanLoop w.old lay.slots lay.points n k es → ListTo w.old w.new lay.slots lay.points n k es }
{
    fill(w, lay.front_used_at(), k, 0);
    fill(w, lay.heads_at(), n, k as u32);
    link_all(w, lay, k);
}
