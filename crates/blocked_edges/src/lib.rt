// Refused edges in lent memory: records that are never removed,
// in an area of a slice at b with room for n records and p nodes.
#![tactic(auto)]

ghost use Rattle.std.specs.Prelude.{◌≡◌, List, ℕ, ◌^◌, ◌<◌, ◌≤◌, MatchOption};
ghost use Rattle.definition.specs.Plane.{Edge};
ghost use Rattle.definition.specs.Cells.{has_edge_in};
ghost use Rattle.blocked_edges.specs.Records.{Room, IsEdge, Lists, list_of, place};
ghost use Rattle.blocked_edges.specs.Blocks.{Blocks, OpenTo, CanBlock, BlockTo, CanFree, FreeTo};

use words::wide;

// Memory of any content becomes that of no refused edge.
pub fn open(w: &mut [u32], b: usize, n: usize, p: usize)
    requires { Room w.old b n p }
    ensures { OpenTo w.old w.new b n p }
{
    for v in 0..p {
        w[b + 3 * n + v] = n as u32;
        w[b + 3 * n + p + v] = 0;
    }
}

// The list of the edge u-v, by the sum of its nodes: the edges of one node stand in different lists.
fn list_of(p: usize, u: usize, v: usize) -> usize
    requires edge { IsEdge p (u, v) }
    requires p_bound { p ≤ 2 ^ 32 }
    ensures { (result ≡ list_of p (u, v)) × (result < p) }
{
    let sum = u + v;
    if sum < p {
        return sum;
    }
    sum - p
}

// The record of the edge u-v, where it has one.
// The time taken is the length of its list.
fn seek(w: &[u32], b: usize, n: usize, p: usize, u: usize, v: usize) -> Option<usize>
    requires lists { (ever : List Edge) × Lists w.now b n p ever }
    requires edge { IsEdge p (u, v) }
    ensures { (ever : List Edge) → Lists w.now b n p ever → MatchOption result (place n (u, v) ever ≡ n) (λ i. (i ≡ place n (u, v) ever) × (i < n)) }
{
    let g = list_of(p, u, v);
    let mut i = wide(w[b + 3 * n + g]);
    while i < n {
        if wide(w[b + i]) == v {
            return Some(i);
        }
        i = wide(w[b + 2 * n + i]);
    }
    None
}

// The edge u-v was refused, and no quad that has u or v was placed since.
pub fn is_blocked(w: &[u32], b: usize, n: usize, p: usize, u: usize, v: usize) -> bool
    requires by_index { (k : ℕ) × (ever : List Edge) × (bl : List Edge) × Blocks w.now b n p k ever bl }
    requires edge { IsEdge p (u, v) }
    ensures { (k : ℕ) (ever bl : List Edge) → Blocks w.now b n p k ever bl → result ≡ has_edge_in bl (u, v) }
{
    let Some(i) = seek(w, b, n, p, u, v) else {
        return false;
    };
    let born = w[b + n + i];
    let at = b + 3 * n + p;
    if born < w[at + u] {
        return false;
    }
    if born < w[at + v] {
        return false;
    }
    true
}

// The edge u-v is refused after k quads, where c edges have a record; the answer is how many have one then.
pub fn block(
    w: &mut [u32],
    b: usize,
    n: usize,
    p: usize,
    c: usize,
    k: usize,
    u: usize,
    v: usize,
) -> usize
    requires { (ever : List Edge) × (bl : List Edge) × CanBlock w.old b n p c k u v ever bl }
    ensures { BlockTo w.old w.new b n p c k u v result }
{
    if let Some(i) = seek(w, b, n, p, u, v) {
        w[b + n + i] = k as u32;
        return c;
    }
    let g = list_of(p, u, v);
    let first = w[b + 3 * n + g];
    w[b + c] = v as u32;
    w[b + n + c] = k as u32;
    w[b + 2 * n + c] = first;
    w[b + 3 * n + g] = c as u32;
    c + 1
}

// Quad number k + 1 has the four nodes: the blocked edges that touch them are free.
pub fn free(
    w: &mut [u32],
    b: usize,
    n: usize,
    p: usize,
    k: usize,
    n0: usize,
    n1: usize,
    n2: usize,
    n3: usize,
)
    requires { (ever : List Edge) × (bl : List Edge) × CanFree w.old b n p k n0 n1 n2 n3 ever bl }
    ensures { FreeTo w.old w.new b n p k n0 n1 n2 n3 }
{
    let quad = (k + 1) as u32;
    let at = b + 3 * n + p;
    w[at + n0] = quad;
    w[at + n1] = quad;
    w[at + n2] = quad;
    w[at + n3] = quad;
}
