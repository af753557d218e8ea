// The triangles that share an edge with one: they are found in the rings of two of its nodes.
// The walk goes past those listed and can be taken up again.
ghost use Rattle.std.specs.Prelude.{◌≡◌, ◌||◌, List, ℕ, ◌<◌};
ghost use Rattle.definition.specs.Cells.{Tri, tri, Live, Mesh, tri_has};
ghost use Rattle.cells.specs.Rep.{CellAt, Room, TriIn};
ghost use Rattle.cells.specs.Walk.{CanSee};
ghost use Rattle.components.specs.Flood.{Marked, Seen, Met, At, Beside};
ghost use Rattle.components.specs.Seek.{IsNew, Ring, Sought, Looked};

use cells::find::kind;
use cells::layout::{BEFORE, CORNERS, Layout};
use regions::lists::{append, mark};
use rings::next;
use words::wide;

// The nodes of a triangle.
#[derive(Clone, Copy)]
struct Nodes {
    x: u32,
    y: u32,
    z: u32,
}

// The triangle in slot i has the node v.
fn has(w: &[u32], s: usize, i: usize, v: u32) -> bool
    requires { CanSee w.now s i }
    ensures { (t : Tri) → CellAt w.now s i (tri t) → result ≡ tri_has t v }
{
    if w[s + CORNERS * i] == v {
        return true;
    }
    if w[s + CORNERS * i + 1] == v {
        return true;
    }
    w[s + CORNERS * i + 2] == v
}

// The triangle in slot i has the node y or the node z.
fn has_one(w: &[u32], s: usize, i: usize, y: u32, z: u32) -> bool
    requires { CanSee w.now s i }
    ensures { (t : Tri) → CellAt w.now s i (tri t) → result ≡ (tri_has t y || tri_has t z) }
{
    has(w, s, i, y) || has(w, s, i, z)
}

// The nodes of the triangle in slot i.
fn read_nodes(w: &[u32], s: usize, i: usize) -> Nodes
    requires { CanSee w.now s i }
    ensures { (t : Tri) → CellAt w.now s i (tri t) → (result.x ≡ t.n0) × (result.y ≡ t.n1) × (result.z ≡ t.n2) }
{
    let x = w[s + CORNERS * i];
    let y = w[s + CORNERS * i + 1];
    let z = w[s + CORNERS * i + 2];
    Nodes { x, y, z }
}

// The cell in slot j is a triangle that has y or z and is not listed.
fn is_new(w: &[u32], lay: Layout, j: usize, y: u32, z: u32) -> bool
    requires { (k : ℕ) × (m : Mesh) × (xs : List Live) × (x : Live) × Seen w.now lay.slots lay.points k j m xs x }
    ensures { (k : ℕ) (m : Mesh) (xs : List Live) (x : Live) → Seen w.now lay.slots lay.points k j m xs x → IsNew xs x y z result }
{
    if mark(w, lay, j) != 0 {
        return false;
    }
    if kind(w, lay.slots, j) != 3 {
        return false;
    }
    has_one(w, lay.slots, j, y, z)
}

// From the place `from` in a ring on, the next corner of a triangle that has y or z and is not listed.
// The answer is no corner where there is none.
// Kept (1): that is how the ring itself ends, and the walk goes on from the answer as from any place of the ring.
fn next_new(w: &[u32], lay: Layout, y: u32, z: u32, from: usize) -> usize
    requires by_index { (u : ℕ) × (k : ℕ) × (m : Mesh) × (xs : List Live) × (rest : List Live) × Ring w.now lay.slots lay.points k u from m xs rest }
    requires room { Room w.now lay.slots lay.points }
    ensures { (u k : ℕ) (m : Mesh) (xs rest : List Live) → Ring w.now lay.slots lay.points k u from m xs rest → Sought w.now lay.slots lay.points k u y z result m xs rest }
{
    let mut c = from;
    while c < CORNERS * lay.slots {
        if is_new(w, lay, c / CORNERS, y, z) {
            return c;
        }
        c = next(w, BEFORE * lay.slots, CORNERS * lay.slots + lay.points, c);
    }
    c
}

// The first corner in the ring of x of a triangle that has y or z and is not listed.
fn first_new(w: &[u32], lay: Layout, x: usize, y: u32, z: u32) -> usize
    requires by_index { (k : ℕ) × (m : Mesh) × (xs : List Live) × Marked w.now lay.slots lay.points k m xs }
    requires room { Room w.now lay.slots lay.points }
    requires x_lt_p { x < lay.points }
    ensures { (k : ℕ) (m : Mesh) (xs : List Live) → Marked w.now lay.slots lay.points k m xs → Sought w.now lay.slots lay.points k x y z result m xs m.live }
{
    let from = next(
        w,
        BEFORE * lay.slots,
        CORNERS * lay.slots + lay.points,
        CORNERS * lay.slots + x,
    );
    next_new(w, lay, y, z, from)
}

// The triangles at x that have y or z and are not listed come to the end of the list of n,
// in the order of the ring of x.
fn meet_ring(w: &mut [u32], lay: Layout, n: usize, x: usize, y: u32, z: u32) -> usize
    requires marked { (m : Mesh) × (xs : List Live) × Marked w.old lay.slots lay.points n m xs }
    requires room { Room w.old lay.slots lay.points }
    requires x_lt_p { x < lay.points }
    ensures { (m : Mesh) (xs : List Live) → Marked w.old lay.slots lay.points n m xs → Met w.old w.new lay.slots lay.points result m xs (At x y z) }
{
    let mut k = n;
    let mut c = first_new(w, lay, x, y, z);
    while c < CORNERS * lay.slots {
        append(w, lay, k, c / CORNERS);
        k += 1;
        c = next_new(w, lay, y, z, c);
    }
    k
}

// The triangles that share an edge with the one in slot i come to the end of the list of n, unless they are listed:
// those at its first node, then those at the second that have the third.
pub fn meet_tri(w: &mut [u32], lay: Layout, n: usize, i: usize) -> usize
    requires { (m : Mesh) × (xs : List Live) × Marked w.old lay.slots lay.points n m xs × TriIn m i }
    ensures { (m : Mesh) (xs : List Live) → Marked w.old lay.slots lay.points n m xs → (t : TriIn m i) → Met w.old w.new lay.slots lay.points result m xs (Beside t.t) }
{
    let t = read_nodes(w, lay.slots, i);
    let k = meet_ring(w, lay, n, wide(t.x), t.y, t.z);
    meet_ring(w, lay, k, wide(t.y), t.z, t.z)
}

// The slot of a triangle that shares an edge with the one in slot i and is not listed, where there is one.
pub fn look_tri(w: &[u32], lay: Layout, i: usize) -> Option<usize>
    requires { (k : ℕ) × (m : Mesh) × (xs : List Live) × Marked w.now lay.slots lay.points k m xs × TriIn m i }
    ensures { (k : ℕ) (m : Mesh) (xs : List Live) → Marked w.now lay.slots lay.points k m xs → (t : TriIn m i) → Looked lay.slots result m xs (Beside t.t) }
{
    let t = read_nodes(w, lay.slots, i);
    let c = first_new(w, lay, wide(t.x), t.y, t.z);
    if c < CORNERS * lay.slots {
        return Some(c / CORNERS);
    }
    let d = first_new(w, lay, wide(t.y), t.z, t.z);
    if d < CORNERS * lay.slots {
        return Some(d / CORNERS);
    }
    None
}
