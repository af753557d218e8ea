// Edge candidates at an end of a front edge: the edges near an ideal, which is a direction in which a side is wanted.
#![tactic(auto)]

mod doubles;
pub mod wishes;

ghost use Rattle.std.specs.Prelude.{◌≡◌, true, ◌||◌, ℕ, ◌+◌, ◌≤◌, length};
ghost use Rattle.definition.specs.Cells.{Mesh};
ghost use Rattle.definition.specs.Candidates.{turned};
ghost use Rattle.cells.specs.Rep.{Rep, Pts};
ghost use Rattle.plane.specs.Vectors.{vec};
ghost use Rattle.edge_candidates.specs.Words.{Numbers, vec_at};
ghost use Rattle.edge_candidates.specs.Wanted.{turn, At, near, near_ideal, edge_reach, by_edge};
ghost use Rattle.edge_candidates.specs.Wishes.{Wished, CanTest, CanGet, Hit, Tested, kept_test, four_test, node_test};

use crate::doubles::get;
use crate::wishes::{Wish, ideal_toward};
use cells::find::tri_around;
use cells::layout::Layout;
use plane::vectors::{Vec, dot, from_to, norm, over};
use words::wide;

// The least dot product of an edge candidate's unit with an ideal.
pub const EDGE_DOT: f64 = 0.866;

// An edge candidate's length in targets.
pub const EDGE_LOW: f64 = 0.4;

pub const EDGE_HIGH: f64 = 2.5;

// Where there are more ideals than this, one of each so many is tested first.
const SPREAD: usize = 16;

// A quarter turn of a vector.
// Kept (7): `left` is tested here alone, and picks the signs of one step.
pub fn turned(left: bool, u: Vec) -> Vec
    ensures { vec result ≡ turned (turn left) (vec u) }
{
    if left {
        return Vec {
            dx: -u.dy,
            dy: u.dx,
        };
    }
    Vec {
        dx: u.dy,
        dy: -u.dx,
    }
}

// The direction i is near the unit e.
fn is_near(e: Vec, i: Vec) -> bool
    ensures { result ≡ near (vec e) (vec i) }
{
    dot(e, i) >= EDGE_DOT
}

// The vector that stands at `at`.
fn vec_at(w: &[u32], at: usize) -> Vec
    requires at_in_bounds { at + 4 ≤ length w.now }
    requires numbers { Numbers w.now at }
    ensures { vec result ≡ vec_at w.now at }
{
    Vec {
        dx: get(w, at),
        dy: get(w, at + 2),
    }
}

// One of the four ideals that stand at `at` is near e, found without a branch.
fn four_near(w: &[u32], at: usize, e: Vec) -> bool
    requires { CanGet w.now at 4 }
    ensures { result ≡ four_test w.now at (vec e) }
{
    let low = is_near(e, vec_at(w, at)) | is_near(e, vec_at(w, at + 4));
    let high = is_near(e, vec_at(w, at + 8)) | is_near(e, vec_at(w, at + 12));
    low | high
}

// One of the ideals in the places from i to k, which stand from b on, is near e.
fn few_near(w: &[u32], b: usize, i: usize, k: usize, e: Vec) -> bool
    requires { CanGet w.now b k }
    ensures { Tested (kept_test w.now b (vec e)) i k result }
{
    for j in i..k {
        if is_near(e, vec_at(w, b + 4 * j)) {
            return true;
        }
    }
    false
}

// One of the k ideals that stand from b on is near e.
// Four are tested at once, and four more before the loop goes on.
fn all_near(w: &[u32], b: usize, k: usize, e: Vec) -> bool
    requires { CanGet w.now b k }
    ensures { Tested (kept_test w.now b (vec e)) 0 k result }
{
    for i in 0..k / 8 {
        let n = 8 * i;
        if four_near(w, b + 4 * n, e) {
            return true;
        }
        if four_near(w, b + 4 * (n + 4), e) {
            return true;
        }
    }
    few_near(w, b, 8 * (k / 8), k, e)
}

// One of each SPREAD of the k ideals that stand from b on is near e.
// Neighbouring ideals in the ring mostly have neighbouring directions, so an ideal near e is mostly found here.
fn spread_near(w: &[u32], b: usize, k: usize, e: Vec) -> bool
    requires { CanGet w.now b k }
    ensures { result ≡ true → Hit (kept_test w.now b (vec e)) 0 k }
{
    for i in (0..k).step_by(SPREAD) {
        if is_near(e, vec_at(w, b + 4 * i)) {
            return true;
        }
    }
    false
}

// One of the k ideals that stand from b on is near e.
fn kept_near(w: &[u32], b: usize, k: usize, e: Vec) -> bool
    requires { CanGet w.now b k }
    ensures { Tested (kept_test w.now b (vec e)) 0 k result }
{
    if k <= SPREAD {
        return few_near(w, b, 0, k, e);
    }
    if spread_near(w, b, k, e) {
        return true;
    }
    all_near(w, b, k, e)
}

// One of the nodes from b on, from place k to place r, gives an ideal that is near e.
fn rest_near(w: &[u32], q: &[f64], a: usize, u: Vec, b: usize, k: usize, r: usize, e: Vec) -> bool
    requires { CanTest w.now q.now a b r }
    ensures { Tested (node_test w.now q.now a (vec u) b (vec e)) k r result }
{
    for i in k..r {
        if is_near(e, ideal_toward(q, a, u, wide(w[b + i]))) {
            return true;
        }
    }
    false
}

// The unit e is near an ideal of those wanted at a.
// Where other front edges give none, it is near the unit to the other end, turned a quarter.
fn near_ideal(
    w: &[u32],
    q: &[f64],
    s: usize,
    a: usize,
    b: usize,
    o: Wish,
    left: bool,
    e: Vec,
) -> bool
    requires { (m : Mesh) × (p : ℕ) × (other : ℕ) × Pts q.now p m × Wished w.now q.now s b o m a other }
    ensures { (m : Mesh) (p other : ℕ) → Pts q.now p m → Wished w.now q.now s b o m a other → result ≡ near_ideal (turn left) m a other (vec o.unit) (vec e) }
{
    if o.count == 0 {
        return is_near(e, turned(left, o.unit));
    }
    if kept_near(w, b + 2 * s, o.kept, e) {
        return true;
    }
    rest_near(w, q, a, o.unit, b, o.kept, o.count, e)
}

// A length between the edge factors.
fn edge_reach(d: f64, target: f64) -> bool
    ensures { result ≡ edge_reach d target }
{
    if d < EDGE_LOW * target {
        return false;
    }
    !(d > EDGE_HIGH * target)
}

// v is the end of an edge at a that a live triangle owns, of a length between the edge factors,
// near an ideal of those wanted.
// Most nodes are refused by the first test, which takes no root.
pub fn edge_candidate(
    w: &[u32],
    q: &[f64],
    lay: Layout,
    a: usize,
    other: usize,
    target: f64,
    left: bool,
    b: usize,
    o: Wish,
    v: usize,
) -> bool
    requires { (m : Mesh) × Rep w.now lay.slots lay.points m × Pts q.now lay.points m × Wished w.now q.now lay.slots b o m a other × At m a v }
    ensures { (m : Mesh) → Rep w.now lay.slots lay.points m → Pts q.now lay.points m → Wished w.now q.now lay.slots b o m a other → At m a v → result ≡ by_edge (turn left) m a other target v }
{
    if o.near {
        return false;
    }
    if v == a {
        return false;
    }
    if v == other {
        return false;
    }
    if tri_around(w, lay, v, a) >= lay.slots {
        return false;
    }
    let d = from_to(q, a, v);
    let n = norm(d);
    if !edge_reach(n, target) {
        return false;
    }
    near_ideal(w, q, lay.slots, a, b, o, left, over(d, n))
}
