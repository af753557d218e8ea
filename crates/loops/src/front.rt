// The front's edges as loops, each from the first edge in no loop.
// Loops whose edges are all blocked are left out.
ghost use Rattle.std.specs.Prelude.{List, ℕ};
ghost use Rattle.definition.specs.Plane.{Edge};
ghost use Rattle.definition.specs.Cells.{Mesh};
ghost use Rattle.edges.specs.Parts.{edge_of};
ghost use Rattle.loops.specs.Sift.{CanSift, SiftedTo};
ghost use Rattle.loops.specs.Trace.{walk_of, CanTrace, TraceTo};

use crate::keep::{Sifted, keep};
use crate::links::list_edges;
use crate::walks::{place, walk};
use cells::layout::Layout;
use words::wide;

// The loop of the edge i, the first in no loop, is loop number j and stands at the places from b on.
// The answer is the place behind it.
fn trace(w: &mut [u32], lay: Layout, k: usize, j: usize, b: usize, i: usize) -> usize
    requires { (n : ℕ) × (es : List Edge) × CanTrace w.old lay.slots lay.points n k b j i es }
    ensures { (n : ℕ) (es : List Edge) (q : CanTrace w.old lay.slots lay.points n k b j i es) → TraceTo w.old w.new lay.slots lay.points n k b result j i es (walk_of (edge_of es i) q.rest) }
{
    w[lay.starts_at() + j] = b as u32;
    let u = wide(w[lay.front_u_at() + i]);
    let v = wide(w[lay.front_v_at() + i]);
    place(w, lay, b, i);
    walk(w, lay, k, b + 1, u, v)
}

// Of the loops of the front's k edges, over n nodes, those with an edge that is not blocked, with their perimeters.
// The next loop takes the places of one that is left out.
pub fn front_loops(
    w: &mut [u32],
    q: &[f64],
    f: &mut [f64],
    lay: Layout,
    n: usize,
    k: usize,
) -> Sifted
    requires { (m : Mesh) × (es : List Edge) × (bl : List Edge) × CanSift w.old q.now f.old lay.slots lay.points n k m es bl }
    ensures { (m : Mesh) (es bl : List Edge) → CanSift w.old q.now f.old lay.slots lay.points n k m es bl → SiftedTo w.old w.new f.old f.new lay.slots lay.points n result.loops result.edges m.points es bl }
{
    list_edges(w, lay, n, k);
    let used = lay.front_used_at();
    let mut x = Sifted { loops: 0, edges: 0 };
    for i in 0..k {
        if w[used + i] == 0 {
            let e = trace(w, lay, k, x.loops, x.edges, i);
            x = keep(w, q, f, lay, e, x);
        }
    }
    x
}
