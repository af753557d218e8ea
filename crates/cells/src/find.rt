// Owners of an edge, found by walking the ring of corners of one of its nodes, in the same order around both;
// of a front edge a note may tell.
ghost use Rattle.std.specs.Prelude.{◌≡◌, true, List, [], ◌∷◌, ◌+◌, ◌*◌, ◌/◌, ◌<◌, ◌≤◌, eqb, length, get_or};
ghost use Rattle.definition.specs.Cells.{Live, Mesh, key, owners, is_front, has_edge, tri_owner};
ghost use Rattle.cells.specs.Rep.{Rep, Room};
ghost use Rattle.cells.specs.Notes.{IsNoted};
ghost use Rattle.cells.specs.Walk.{node_in, node_after, node_before, after, before, beside, CanSee, CanRead, IsEdge, Pos, Sought, At, Next, one_if, slot_or};

use crate::layout::{BEFORE, CORNERS, Layout};
use rings::next;
use words::wide;

// The kind of the cell in slot i: 3 a triangle, 4 a quad, 0 none.
pub fn kind(w: &[u32], s: usize, i: usize) -> usize
    requires { CanSee w.now s i }
    ensures { result ≡ get_or w.now i 0 }
{
    wide(w[i])
}

// The node in place k of slot i.
pub fn node(w: &[u32], s: usize, i: usize, k: usize) -> usize
    requires can_see { CanSee w.now s i }
    requires k_bound { k < 4 }
    ensures { result ≡ node_in w.now s i k }
{
    wide(w[s + CORNERS * i + k])
}

// The place after place k of a cell of n nodes.
fn place_after(k: usize, n: usize) -> usize
    requires { k < 4 }
    ensures { (result ≡ after k n) × (result ≤ 4) }
{
    if k + 1 == n {
        return 0;
    }
    k + 1
}

// The place before place k of a cell of n nodes.
fn place_before(k: usize, n: usize) -> usize
    requires { (k < 4) × (3 ≤ n) × (n ≤ 4) }
    ensures { (result ≡ before k n) × (result < 4) }
{
    if k == 0 {
        return n - 1;
    }
    k - 1
}

// The node after corner c in its cell.
pub fn node_after(w: &[u32], s: usize, c: usize) -> usize
    requires { CanRead w.now s c }
    ensures { result ≡ node_after w.now s c }
{
    let i = c / CORNERS;
    let k = place_after(c % CORNERS, wide(w[i]));
    wide(w[s + CORNERS * i + k])
}

// The node before corner c in its cell.
pub fn node_before(w: &[u32], s: usize, c: usize) -> usize
    requires { CanRead w.now s c }
    ensures { result ≡ node_before w.now s c }
{
    let i = c / CORNERS;
    let k = place_before(c % CORNERS, wide(w[i]));
    wide(w[s + CORNERS * i + k])
}

// The cell of corner c has v beside that corner.
fn is_beside(w: &[u32], s: usize, c: usize, v: usize) -> bool
    requires { CanRead w.now s c }
    ensures { result ≡ beside w.now s c v }
{
    if node_after(w, s, c) == v {
        return true;
    }
    node_before(w, s, c) == v
}

// From the place `from` in the ring of u on, the next corner whose cell has the edge u-v, or the code of the ring's end, which is no corner.
pub fn seek(w: &[u32], lay: Layout, u: usize, v: usize, from: usize) -> usize
    requires pos { (rest : List Live) × Pos w.now lay.slots lay.points u from rest }
    requires edge { IsEdge lay.points u v }
    ensures { (rest : List Live) → Pos w.now lay.slots lay.points u from rest → Sought w.now lay.slots lay.points u v result rest }
{
    let mut c = from;
    while c < CORNERS * lay.slots {
        if is_beside(w, lay.slots, c, v) {
            return c;
        }
        c = next(w, BEFORE * lay.slots, CORNERS * lay.slots + lay.points, c);
    }
    c
}

// The corner at u of the first owner of the edge u-v, or the code of the ring's end, which is no corner.
// The owner's slot is the corner divided by 4.
pub fn first_owner(w: &[u32], lay: Layout, u: usize, v: usize) -> usize
    requires rep { (m : Mesh) × Rep w.now lay.slots lay.points m }
    requires edge { IsEdge lay.points u v }
    ensures { (m : Mesh) → Rep w.now lay.slots lay.points m → At w.now lay.slots lay.points u v result (owners m (key u v)) }
{
    seek(
        w,
        lay,
        u,
        v,
        next(
            w,
            BEFORE * lay.slots,
            CORNERS * lay.slots + lay.points,
            CORNERS * lay.slots + u,
        ),
    )
}

// The corner at u of the next owner of the edge u-v after the one of corner c, or the code of the ring's end.
pub fn next_owner(w: &[u32], lay: Layout, u: usize, v: usize, c: usize) -> usize
    requires at { (xs : List Live) × At w.now lay.slots lay.points u v c xs }
    requires edge { IsEdge lay.points u v }
    requires c_bound { c < 4 * lay.slots }
    ensures { Next w.now lay.slots lay.points u v c result }
{
    seek(
        w,
        lay,
        u,
        v,
        next(w, BEFORE * lay.slots, CORNERS * lay.slots + lay.points, c),
    )
}

// The edge u-v has an owner.
pub fn has_edge(w: &[u32], lay: Layout, u: usize, v: usize) -> bool
    requires rep { (m : Mesh) × Rep w.now lay.slots lay.points m }
    requires edge { IsEdge lay.points u v }
    ensures { (m : Mesh) → Rep w.now lay.slots lay.points m → result ≡ has_edge m u v }
{
    first_owner(w, lay, u, v) < CORNERS * lay.slots
}

// Followed in step, the ring of v ends before that of u. No ring has more corners than there are slots.
fn ends_before(w: &[u32], lay: Layout, u: usize, v: usize) -> bool
    requires room { Room w.now lay.slots lay.points }
    requires u_lt_p { (u < lay.points) × (v < lay.points) }
{
    let mut a = next(
        w,
        BEFORE * lay.slots,
        CORNERS * lay.slots + lay.points,
        CORNERS * lay.slots + u,
    );
    let mut b = next(
        w,
        BEFORE * lay.slots,
        CORNERS * lay.slots + lay.points,
        CORNERS * lay.slots + v,
    );
    for _ in 0..lay.slots {
        if a >= CORNERS * lay.slots {
            return false;
        }
        if b >= CORNERS * lay.slots {
            return true;
        }
        a = next(w, BEFORE * lay.slots, CORNERS * lay.slots + lay.points, a);
        b = next(w, BEFORE * lay.slots, CORNERS * lay.slots + lay.points, b);
    }
    false
}

// The owners of u-v are better sought around v: it has a ring, and a shorter one.
fn is_shorter(w: &[u32], lay: Layout, u: usize, v: usize) -> bool
    requires room { Room w.now lay.slots lay.points }
    requires u_lt_p { u < lay.points }
    ensures { result ≡ true → v < lay.points }
{
    if v >= lay.points {
        return false;
    }
    ends_before(w, lay, u, v)
}

// One where slot i holds a triangle, else nothing.
fn tri_count(w: &[u32], s: usize, i: usize) -> usize
    requires { CanSee w.now s i }
    ensures { (result ≡ one_if (eqb (get_or w.now i 0) 3)) × (result ≤ 1) }
{
    if w[i] == 3 {
        return 1;
    }
    0
}

// The edge u-v has one or two owners, exactly one of them a triangle: found by a walk around u.
fn front_around(w: &[u32], lay: Layout, u: usize, v: usize) -> bool
    requires rep { (m : Mesh) × Rep w.now lay.slots lay.points m }
    requires edge { IsEdge lay.points u v }
    ensures { (m : Mesh) → Rep w.now lay.slots lay.points m → result ≡ is_front m (key u v) }
{
    let mut all: usize = 0;
    let mut tri: usize = 0;
    let mut c = first_owner(w, lay, u, v);
    while c < CORNERS * lay.slots {
        if all == 2 {
            return false;
        }
        all += 1;
        tri += tri_count(w, lay.slots, c / CORNERS);
        if tri == 2 {
            return false;
        }
        c = next_owner(w, lay, u, v, c);
    }
    tri == 1
}

// The edge u-v has one or two owners, exactly one of them a triangle.
// The walk is around the end with the shorter ring, which is that of u where `near` says so.
fn front_by_walk(w: &[u32], lay: Layout, u: usize, v: usize, near: bool) -> bool
    requires rep { (m : Mesh) × Rep w.now lay.slots lay.points m }
    requires edge { IsEdge lay.points u v }
    ensures { (m : Mesh) → Rep w.now lay.slots lay.points m → result ≡ is_front m (key u v) }
{
    if near {
        return front_around(w, lay, u, v);
    }
    if is_shorter(w, lay, u, v) {
        return front_around(w, lay, v, u);
    }
    front_around(w, lay, u, v)
}

// The edge u-v has one or two owners, exactly one of them a triangle,
// for u below v where the front edges of u are noted.
// Then v is one of the noted ends, of which there are known - 1.
fn front_by_note(w: &[u32], lay: Layout, u: usize, v: usize, known: usize) -> bool
    requires rep { (m : Mesh) × Rep w.now lay.slots lay.points m }
    requires edge { IsEdge lay.points u v }
    requires noted { IsNoted w.now lay.slots lay.points u v known }
    ensures { (m : Mesh) → Rep w.now lay.slots lay.points m → result ≡ is_front m (key u v) }
{
    if known == 1 {
        return false;
    }
    let at = lay.fronts_at() + 2 * u;
    if wide(w[at]) == v {
        return true;
    }
    if known == 2 {
        return false;
    }
    wide(w[at + 1]) == v
}

// The edge u-v has one or two owners, exactly one of them a triangle, for u below v.
// The note of u tells, and a walk where its front edges are not noted.
fn front_from(w: &[u32], lay: Layout, u: usize, v: usize, near: bool) -> bool
    requires rep { (m : Mesh) × Rep w.now lay.slots lay.points m }
    requires edge { IsEdge lay.points u v }
    requires u_lt_v { u < v }
    ensures { (m : Mesh) → Rep w.now lay.slots lay.points m → result ≡ is_front m (key u v) }
{
    let known = wide(w[lay.notes_at() + u]) % 4;
    if known == 0 {
        return front_by_walk(w, lay, u, v, near);
    }
    front_by_note(w, lay, u, v, known)
}

// The edge u-v has one or two owners, exactly one of them a triangle, for u above v.
// The note of v tells, and a walk where its front edges are not noted.
fn front_to(w: &[u32], lay: Layout, u: usize, v: usize, near: bool) -> bool
    requires rep { (m : Mesh) × Rep w.now lay.slots lay.points m }
    requires edge { IsEdge lay.points u v }
    requires v_lt_u { v < u }
    ensures { (m : Mesh) → Rep w.now lay.slots lay.points m → result ≡ is_front m (key u v) }
{
    let known = wide(w[lay.notes_at() + v]) % 4;
    if known == 0 {
        return front_by_walk(w, lay, u, v, near);
    }
    front_by_note(w, lay, v, u, known)
}

// The edge u-v has one or two owners, exactly one of them a triangle.
pub fn is_front(w: &[u32], lay: Layout, u: usize, v: usize) -> bool
    requires rep { (m : Mesh) × Rep w.now lay.slots lay.points m }
    requires edge { IsEdge lay.points u v }
    ensures { (m : Mesh) → Rep w.now lay.slots lay.points m → result ≡ is_front m (key u v) }
{
    if u < v {
        return front_from(w, lay, u, v, false);
    }
    front_to(w, lay, u, v, false)
}

// The edge u-v has one or two owners, exactly one of them a triangle;
// for callers that name a node of few cells first.
// Where no note tells, a walk around u does.
pub fn is_front_around(w: &[u32], lay: Layout, u: usize, v: usize) -> bool
    requires rep { (m : Mesh) × Rep w.now lay.slots lay.points m }
    requires edge { IsEdge lay.points u v }
    ensures { (m : Mesh) → Rep w.now lay.slots lay.points m → result ≡ is_front m (key u v) }
{
    if u < v {
        return front_from(w, lay, u, v, true);
    }
    front_to(w, lay, u, v, true)
}

// The slot of the first triangle that has the edge u-v, or the number of slots where there is none.
// A walk around u tells: for callers that name a node of few cells first.
pub fn tri_around(w: &[u32], lay: Layout, u: usize, v: usize) -> usize
    requires rep { (m : Mesh) × Rep w.now lay.slots lay.points m }
    requires edge { IsEdge lay.points u v }
    ensures { (m : Mesh) → Rep w.now lay.slots lay.points m → result ≡ slot_or lay.slots (tri_owner m (key u v)) }
{
    let mut c = first_owner(w, lay, u, v);
    while c < CORNERS * lay.slots {
        if w[c / CORNERS] == 3 {
            return c / CORNERS;
        }
        c = next_owner(w, lay, u, v, c);
    }
    lay.slots
}

// The slot of the first triangle that has the edge u-v, or the number of slots where there is none.
// The walk is around the end with the shorter ring.
pub fn tri_owner(w: &[u32], lay: Layout, u: usize, v: usize) -> usize
    requires rep { (m : Mesh) × Rep w.now lay.slots lay.points m }
    requires edge { IsEdge lay.points u v }
    ensures { (m : Mesh) → Rep w.now lay.slots lay.points m → result ≡ slot_or lay.slots (tri_owner m (key u v)) }
{
    if is_shorter(w, lay, u, v) {
        return tri_around(w, lay, v, u);
    }
    tri_around(w, lay, u, v)
}
