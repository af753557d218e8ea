// What is wanted at an end of a front edge, worked out once for all candidates.
// The nodes whose front edges give an ideal are listed, and the ideals of the first of them are kept as they are
// found.
ghost use Rattle.std.specs.Prelude.{◌≡◌};
ghost use Rattle.definition.specs.Cells.{Mesh};
ghost use Rattle.definition.specs.Candidates.{plus};
ghost use Rattle.cells.specs.Rep.{Rep, Pts};
ghost use Rattle.plane.specs.Points.{Within};
ghost use Rattle.plane.specs.Vectors.{vec};
ghost use Rattle.edge_candidates.specs.Wanted.{At};
ghost use Rattle.edge_candidates.specs.Wishes.{ideal_from, GivenBy, CanAdd, AddedTo, CanList, CanKeep, KeepTo, CanNode, NodeTo, ListedTo, WishedTo};

use crate::doubles::{is_number, put};
use cells::find::{is_front_around, node_after, node_before};
use cells::layout::{BEFORE, CORNERS, Layout};
use plane::vectors::{Vec, from_to, norm, over};
use rings::next;

// A length counts as zero up to this.
pub const TINY_LENGTH: f64 = 1e-12;

// The least sum of two units that gives an ideal.
pub const IDEAL_SUM: f64 = 0.2;

// What is wanted at an end: whether the other end is in the same place, where no edge is a candidate;
// the unit toward it; how many nodes are listed, and of how many the ideals are kept.
// Kept (1): `wish_at` promises the unit and the lists (`Wished`) where `near` holds too, so it answers no Option.
#[derive(Clone, Copy)]
pub struct Wish {
    pub near: bool,
    pub unit: Vec,
    pub count: usize,
    pub kept: usize,
}

// How many nodes are listed, and of how many the ideals are kept.
#[derive(Clone, Copy)]
struct Found {
    count: usize,
    kept: usize,
}

// The sum of two vectors.
fn plus(u: Vec, v: Vec) -> Vec
    ensures { vec result ≡ plus (vec u) (vec v) }
{
    Vec {
        dx: u.dx + v.dx,
        dy: u.dy + v.dy,
    }
}

// The ideal that the edge from a to v gives, if it is a front edge that gives one.
// Its owners are sought around v: the walk is around a already.
fn ideal_of(
    w: &[u32],
    q: &[f64],
    lay: Layout,
    a: usize,
    other: usize,
    u: Vec,
    v: usize,
) -> Option<Vec>
    requires { (m : Mesh) × Rep w.now lay.slots lay.points m × Pts q.now lay.points m × At m a v }
    ensures { (m : Mesh) → Rep w.now lay.slots lay.points m → Pts q.now lay.points m → At m a v → GivenBy q.now m a other (vec u) v result }
{
    if v == a {
        return None;
    }
    if v == other {
        return None;
    }
    if !is_front_around(w, lay, v, a) {
        return None;
    }
    let d = from_to(q, a, v);
    let n = norm(d);
    if n <= TINY_LENGTH {
        return None;
    }
    let h = plus(u, over(d, n));
    let l = norm(h);
    if l > IDEAL_SUM {
        return Some(over(h, l));
    }
    None
}

// The ideal that the edge from a to v gives, where it gives one: halfway between the unit u and its own.
pub fn ideal_toward(q: &[f64], a: usize, u: Vec, v: usize) -> Vec
    requires { Within q.now a × Within q.now v }
    ensures { vec result ≡ ideal_from q.now a (vec u) v }
{
    let d = from_to(q, a, v);
    let h = plus(u, over(d, norm(d)));
    over(h, norm(h))
}

// The node v comes behind the r nodes from b on, if it counts; how many they are then.
// Kept (7): a closure for `yes` would be lent w beside the list in it; here the test is done before the list changes.
pub fn add(w: &mut [u32], b: usize, r: usize, v: usize, yes: bool) -> usize
    requires { CanAdd w.old b r v }
    ensures { AddedTo w.old w.new b r v yes result }
{
    if yes {
        w[b + r] = v as u32;
        return r + 1;
    }
    r
}

// The ideal x of node i from b on is kept, if those of the nodes before it are, there is room, and it has numbers.
// The answer is how many are kept then; they stand behind b and two words for each slot.
fn keep(w: &mut [u32], s: usize, b: usize, i: usize, k: usize, x: Vec) -> usize
    requires { CanKeep w.old s b i k }
    ensures { KeepTo w.old w.new s b i k (vec x) result }
{
    if k < i {
        return k;
    }
    if i >= s {
        return k;
    }
    if !is_number(x.dx) {
        return k;
    }
    if !is_number(x.dy) {
        return k;
    }
    let at = b + 2 * s + 4 * i;
    put(w, at, x.dx);
    put(w, at + 2, x.dy);
    i + 1
}

// The node v is listed behind those found, if its edge with a gives an ideal, and the ideal is kept.
fn list_node(
    w: &mut [u32],
    q: &[f64],
    lay: Layout,
    a: usize,
    other: usize,
    u: Vec,
    b: usize,
    g: Found,
    v: usize,
) -> Found
    requires { (m : Mesh) × CanNode w.old q.now lay.slots lay.points a other b m (vec u) g v }
    ensures { (m : Mesh) → CanNode w.old q.now lay.slots lay.points a other b m (vec u) g v → NodeTo w.old w.new q.now lay.slots a other b m (vec u) g v result }
{
    let Some(x) = ideal_of(w, q, lay, a, other, u, v) else {
        return g;
    };
    w[b + g.count] = v as u32;
    let k = keep(w, lay.slots, b, g.count, g.kept, x);
    Found {
        count: g.count + 1,
        kept: k,
    }
}

// The nodes whose front edges with a give an ideal come to b, one of two cells twice, and their ideals behind them.
fn list_givers(
    w: &mut [u32],
    q: &[f64],
    lay: Layout,
    a: usize,
    other: usize,
    u: Vec,
    b: usize,
) -> Found
    requires { (m : Mesh) × CanList w.old q.now lay.slots lay.points a other b m }
    ensures { (m : Mesh) → CanList w.old q.now lay.slots lay.points a other b m → ListedTo w.old w.new q.now lay.slots b result m a other (vec u) }
{
    let mut g = Found { count: 0, kept: 0 };
    let mut c = next(
        w,
        BEFORE * lay.slots,
        CORNERS * lay.slots + lay.points,
        CORNERS * lay.slots + a,
    );
    while c < CORNERS * lay.slots {
        let x = node_after(w, lay.slots, c);
        let y = node_before(w, lay.slots, c);
        let d = next(w, BEFORE * lay.slots, CORNERS * lay.slots + lay.points, c);
        let one = list_node(w, q, lay, a, other, u, b, g, x);
        g = list_node(w, q, lay, a, other, u, b, one, y);
        c = d;
    }
    g
}

// What is wanted at a, with the nodes listed from b on and the ideals kept behind them.
pub fn wish_at(w: &mut [u32], q: &[f64], lay: Layout, a: usize, other: usize, b: usize) -> Wish
    requires { (m : Mesh) × CanList w.old q.now lay.slots lay.points a other b m }
    ensures { (m : Mesh) → CanList w.old q.now lay.slots lay.points a other b m → WishedTo w.old w.new q.now lay.slots b result m a other }
{
    let d = from_to(q, a, other);
    let n = norm(d);
    let u = over(d, n);
    let g = list_givers(w, q, lay, a, other, u, b);
    Wish {
        near: n <= TINY_LENGTH,
        unit: u,
        count: g.count,
        kept: g.kept,
    }
}
