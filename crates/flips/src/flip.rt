// An edge's diagonal is flipped.
ghost use Rattle.std.specs.Prelude.{◌≡◌, ◌≤◌};
ghost use Rattle.definition.specs.Cells.{Mesh};
ghost use Rattle.definition.specs.Flips.{is_step, third, runs, convex_pair, flipped};
ghost use Rattle.plane.specs.Points.{Within};
ghost use Rattle.cells.specs.Rep.{Rep, Pts};
ghost use Rattle.cells.specs.Walk.{CanSee, IsEdge};
ghost use Rattle.joints.specs.Table.{Locks};
ghost use Rattle.crossings.specs.Nodes.{Four};
ghost use Rattle.meshes.specs.Changes.{Turns};
ghost use Rattle.flips.specs.Nodes.{tri_read, Up};
ghost use Rattle.flips.specs.Flip.{CanTurn, IsFlip, Flips, StaysBelow};
ghost use Rattle.flips.specs.Twins.{OfKinds, IsTwins};

use cells::evens::{is_even, note_even};
use cells::find::{first_owner, next_owner, node};
use cells::layout::{CORNERS, Layout};
use crossings::cross::off_edge;
use joints::locked;
use meshes::store::set_tri;
use plane::sides::apart;

// A flip: not possible, not made for want of room for its entry, or made.
#[derive(Clone, Copy)]
pub enum Turned {
    Not,
    Short,
    Flipped,
}

// a and b are u and v.
fn is_step(a: usize, b: usize, u: usize, v: usize) -> bool
    ensures { result ≡ is_step (u, v) a b }
{
    if a != u {
        return false;
    }
    b == v
}

// The first node of the triangle in slot i that is not on the edge u-v.
pub fn third(w: &[u32], s: usize, i: usize, u: usize, v: usize) -> usize
    requires { CanSee w.now s i }
    ensures { result ≡ third (tri_read w.now s i) (u, v) }
{
    let a = node(w, s, i, 0);
    if off_edge(a, u, v) {
        return a;
    }
    let b = node(w, s, i, 1);
    if off_edge(b, u, v) {
        return b;
    }
    node(w, s, i, 2)
}

// The triangle in slot i runs along the edge from u to v.
fn runs(w: &[u32], s: usize, i: usize, u: usize, v: usize) -> bool
    requires { CanSee w.now s i }
    ensures { result ≡ runs (tri_read w.now s i) (u, v) }
{
    let a = node(w, s, i, 0);
    let b = node(w, s, i, 1);
    let c = node(w, s, i, 2);
    if is_step(a, b, u, v) {
        return true;
    }
    if is_step(b, c, u, v) {
        return true;
    }
    is_step(c, a, u, v)
}

// The slots i and j, where both hold triangles.
fn tris(w: &[u32], s: usize, i: usize, j: usize) -> Option<(usize, usize)>
    requires { CanSee w.now s i × CanSee w.now s j }
    ensures { OfKinds w.now i j result }
{
    if w[i] != 3 {
        return None;
    }
    if w[j] != 3 {
        return None;
    }
    Some((i, j))
}

// The slots of the owners of the edge u-v, where those are two and both triangles.
fn two_tris(w: &[u32], lay: Layout, u: usize, v: usize) -> Option<(usize, usize)>
    requires rep { (m : Mesh) × Rep w.now lay.slots lay.points m }
    requires edge { IsEdge lay.points u v }
    ensures { (m : Mesh) → Rep w.now lay.slots lay.points m → IsTwins m u v result }
{
    let a = first_owner(w, lay, u, v);
    if a >= CORNERS * lay.slots {
        return None;
    }
    let b = next_owner(w, lay, u, v, a);
    if b >= CORNERS * lay.slots {
        return None;
    }
    if next_owner(w, lay, u, v, b) < CORNERS * lay.slots {
        return None;
    }
    tris(w, lay.slots, a / CORNERS, b / CORNERS)
}

// The two triangles on the edge u-v with the third nodes x and y form a strictly convex quad.
fn convex_pair(q: &[f64], u: usize, v: usize, x: usize, y: usize) -> bool
    requires { Within q.now u × Within q.now v × Within q.now x × Within q.now y }
    ensures { (m : Mesh) → Four q.now m u v x y → result ≡ convex_pair m u v x y }
{
    if x == y {
        return false;
    }
    if apart(q, u, v, x, y) {
        return apart(q, x, y, u, v);
    }
    false
}

// A node below which a flip of the edge u-v makes no new edge, not above u:
// the least of u and of the diagonal's ends.
// It is 0 where there is no flip.
pub fn below_flip(w: &[u32], lay: Layout, u: usize, v: usize) -> usize
    requires rep { (m : Mesh) × Rep w.now lay.slots lay.points m }
    requires up { Up lay.points u v }
    ensures few { result ≤ u }
    ensures is { (m : Mesh) → Rep w.now lay.slots lay.points m → StaysBelow m u v result }
{
    let t = two_tris(w, lay, u, v);
    let Some(two) = t else {
        return 0;
    };
    let x = third(w, lay.slots, two.0, u, v);
    let y = third(w, lay.slots, two.1, u, v);
    u.min(x.min(y))
}

// The triangles in slots i and j on the edge u-v, with the third nodes x and y, take the other diagonal,
// with the winding of the first.
fn turn(w: &mut [u32], lay: Layout, u: usize, v: usize, i: usize, j: usize, x: usize, y: usize)
    requires { (m : Mesh) × Rep w.old lay.slots lay.points m × CanTurn m u v i j x y }
    ensures { Turns w.old w.new lay.slots lay.points (λ m. CanTurn m u v i j x y) (λ m. flipped m (u, v) i (tri_read w.old lay.slots i) j x y) }
{
    if runs(w, lay.slots, i, u, v) {
        set_tri(w, lay, i, x, u, y);
        set_tri(w, lay, j, y, v, x);
        return;
    }
    set_tri(w, lay, i, x, y, u);
    set_tri(w, lay, j, y, x, v);
}

// The turn that is the flip of the edge u-v.
// A note that no component is odd stays, for a flip keeps the components even.
fn turn_evenly(
    w: &mut [u32],
    lay: Layout,
    u: usize,
    v: usize,
    i: usize,
    j: usize,
    x: usize,
    y: usize,
)
    requires { (m : Mesh) × Rep w.old lay.slots lay.points m × IsFlip w.old lay.slots m u v i j x y }
    ensures { Turns w.old w.new lay.slots lay.points (λ m. IsFlip w.old lay.slots m u v i j x y) (λ m. flipped m (u, v) i (tri_read w.old lay.slots i) j x y) }
{
    let even = is_even(w, lay);
    turn(w, lay, u, v, i, j, x, y);
    if !even {
        return;
    }
    note_even(w, lay);
}

// The edge u-v becomes the other diagonal of its two triangles.
// It does not where it is locked, its owners are others, or the four points form no strictly convex quad.
// Nothing is turned without `room` for the entry.
pub fn flip(
    w: &mut [u32],
    q: &[f64],
    j: &[u32],
    lay: Layout,
    u: usize,
    v: usize,
    room: bool,
) -> Turned
    requires rep { (m : Mesh) × Rep w.old lay.slots lay.points m × Pts q.now lay.points m × Locks j.now m.locked }
    requires up { Up lay.points u v }
    ensures { Flips w.old w.new q.now j.now lay.slots lay.points u v room result }
{
    if locked(j, u, v) {
        return Turned::Not;
    }
    let t = two_tris(w, lay, u, v);
    let Some(two) = t else {
        return Turned::Not;
    };
    let x = third(w, lay.slots, two.0, u, v);
    let y = third(w, lay.slots, two.1, u, v);
    if !convex_pair(q, u, v, x, y) {
        return Turned::Not;
    }
    if !room {
        return Turned::Short;
    }
    turn_evenly(w, lay, u, v, two.0, two.1, x, y);
    Turned::Flipped
}
