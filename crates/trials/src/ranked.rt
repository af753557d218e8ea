// Trial pairs: a side node c at a and a side node d at b give the quad a b d c.
ghost use Rattle.std.specs.Prelude.{◌≡◌, ◌||◌, [], ◌∷◌, ℕ, ◌≤◌, ◌<◌, take};
ghost use Rattle.definition.specs.Call.{first_points};
ghost use Rattle.definition.specs.Cells.{Mesh, new_quad};
ghost use Rattle.definition.specs.Lists.{contains, flat_map};
ghost use Rattle.definition.specs.Trials.{rated, trial_before, trials};
ghost use Rattle.plane.specs.Points.{Within};
ghost use Rattle.rules.specs.Settings.{quality_of};
ghost use Rattle.trials.specs.Kept.{Falling, Keeps, listed, onto, room};
ghost use Rattle.trials.specs.Floors.{Fair, KeepsAbove, NeutralUnder, bar, reaching, Ended};
ghost use Rattle.trials.specs.Ranked.{Far, HalfAt, Named, metrics_at, part, trial_at};

use crate::first_corner::{Part, all_neutral, corner_at};
use crate::kept::{NODES, ROOM, Trial, insert, outdone};
use plane::floats::greater;
use plane::metrics::{passes, quad_metrics_by, score};
use plane::vectors::length;
use rules::Quality;

// With fewer side nodes at a than this no floor is looked for.
const FEW: usize = 32;

// The half of a pair's quads that its first node gives: the edge a b and the side node c at a,
// with the lengths of a b and c a.
#[derive(Clone, Copy)]
pub struct Half {
    pub a: usize,
    pub b: usize,
    pub c: usize,
    pub ab: f64,
    pub ca: f64,
}

// Two of the nodes are one, a and b apart.
fn meets(a: usize, b: usize, c: usize, d: usize) -> bool
    ensures { result ≡ (contains (a ∷ b ∷ []) c || contains (a ∷ b ∷ c ∷ []) d) }
{
    if c == a {
        return true;
    }
    if c == b {
        return true;
    }
    if d == a {
        return true;
    }
    if d == b {
        return true;
    }
    d == c
}

// With the quad a b d c, if its metrics pass.
// Its score is at most its scaled Jacobian, so one that is outdone by that is not scored.
fn rate(
    scores: &mut [f64; ROOM],
    nodes: &mut [usize; NODES],
    count: usize,
    y: Quality,
    q: &[f64],
    h: Half,
    d: usize,
) -> usize
    requires count_le_pairs { (count ≤ y.pairs) × (y.pairs ≤ room) × Falling (listed scores.old nodes.old count) }
    requires half_at { HalfAt q.now h × Within q.now d }
    ensures { Keeps scores.new nodes.new y.pairs result (take y.pairs (onto trial_before (rated (quality_of y) (new_quad h.a h.b d h.c) (metrics_at q.now h.a h.b d h.c)) (listed scores.old nodes.old count))) }
{
    let m = quad_metrics_by(q, h.a, h.b, d, h.c, h.ab, h.ca);
    let Some(found) = m else {
        return count;
    };
    if outdone(scores, count, y.pairs, found.jacobian) {
        return count;
    }
    if !passes(m, y.least_jacobian, y.largest_cosine) {
        return count;
    }
    let t = Trial {
        score: score(m),
        n0: h.a,
        n1: h.b,
        n2: d,
        n3: h.c,
    };
    insert(scores, nodes, count, y.pairs, t)
}

// With the pair c d, if its nodes differ and its metrics pass.
fn with_pair(
    scores: &mut [f64; ROOM],
    nodes: &mut [usize; NODES],
    count: usize,
    y: Quality,
    q: &[f64],
    h: Half,
    d: usize,
) -> usize
    requires count_le_pairs { (count ≤ y.pairs) × (y.pairs ≤ room) × Falling (listed scores.old nodes.old count) }
    requires half_at { HalfAt q.now h × Within q.now d }
    ensures { Keeps scores.new nodes.new y.pairs result (take y.pairs (onto trial_before (trial_at (quality_of y) q.now h.a h.b h.c d) (listed scores.old nodes.old count))) }
{
    if meets(h.a, h.b, h.c, d) {
        return count;
    }
    rate(scores, nodes, count, y, q, h, d)
}

// With the pairs of c and each side node at b, the last first.
fn with_node(
    scores: &mut [f64; ROOM],
    nodes: &mut [usize; NODES],
    count: usize,
    y: Quality,
    w: &[u32],
    q: &[f64],
    far: Part,
    h: Half,
) -> usize
    requires count_le_pairs { (count ≤ y.pairs) × (y.pairs ≤ room) × Falling (listed scores.old nodes.old count) }
    requires far { Far w.now q.now far.at far.count × HalfAt q.now h }
    ensures { Keeps scores.new nodes.new y.pairs result (take y.pairs (onto trial_before (flat_map (trial_at (quality_of y) q.now h.a h.b h.c) (part w.now far.at far.count)) (listed scores.old nodes.old count))) }
{
    let mut k = count;
    for j in (0..far.count).rev() {
        let d = w[far.at + j] as usize;
        k = with_pair(scores, nodes, k, y, q, h, d);
    }
    k
}

// i or r.
// Kept (7): `first` picks one of two places, and no step to run.
fn either(first: bool, i: usize, r: usize) -> usize
    ensures { (n : ℕ) → i < n → r < n → result < n }
{
    if first {
        return i;
    }
    r
}

// The place of a side node at a from whose corner much is hoped: the last with the greatest scaled Jacobian there.
fn steepest(w: &[u32], q: &[f64], near: Part, a: usize, b: usize) -> usize
    requires far { Far w.now q.now near.at near.count }
    requires within { Within q.now a × Within q.now b }
    requires nears_nonzero { 0 < near.count }
    ensures { result < near.count }
{
    let mut top = -1.0 / 0.0;
    let mut r = 0;
    for i in 0..near.count {
        let x = corner_at(q, a, b, w[near.at + i] as usize);
        r = either(x >= top, i, r);
        top = greater(top, x);
    }
    r
}

// A score that so many pairs as are wanted reach: the last one kept of those with one side node at a.
// None where none is found, or few nodes are to be gone through.
fn floor_of(
    scores: &mut [f64; ROOM],
    nodes: &mut [usize; NODES],
    y: Quality,
    w: &[u32],
    q: &[f64],
    near: Part,
    far: Part,
    a: usize,
    b: usize,
    ab: f64,
) -> Option<f64>
    requires pairs_le_room { y.pairs ≤ room }
    requires far { Far w.now q.now near.at near.count × Far w.now q.now far.at far.count × Ended q.now a b ab }
    ensures fair { Fair (bar result) y.pairs (flat_map (λ c. flat_map (trial_at (quality_of y) q.now a b c) (part w.now far.at far.count)) (part w.now near.at near.count)) }
    ensures neutral { NeutralUnder result w.now q.now far.at far.count a b }
{
    if near.count < FEW {
        return None;
    }
    if !all_neutral(w, q, far, a, b) {
        return None;
    }
    let i = steepest(w, q, near, a, b);
    let c = w[near.at + i] as usize;
    let ca = length(q, c, a);
    let h = Half { a, b, c, ab, ca };
    let k = with_node(scores, nodes, 0, y, w, q, far, h);
    if k < y.pairs {
        return None;
    }
    if k == 0 {
        return None;
    }
    Some(scores[k - 1])
}

// With the pairs of c, but where its corner is below the floor, or below the last score kept where no more are
// wanted: then so is each of their scores.
fn with_reaching(
    scores: &mut [f64; ROOM],
    nodes: &mut [usize; NODES],
    count: usize,
    y: Quality,
    w: &[u32],
    q: &[f64],
    far: Part,
    a: usize,
    b: usize,
    ab: f64,
    c: usize,
    floor: Option<f64>,
) -> usize
    requires count_le_pairs { (count ≤ y.pairs) × (y.pairs ≤ room) × Falling (listed scores.old nodes.old count) }
    requires far { Far w.now q.now far.at far.count × Ended q.now a b ab × Within q.now c }
    requires neutral_below { NeutralUnder floor w.now q.now far.at far.count a b }
    ensures { KeepsAbove (bar floor) scores.new nodes.new y.pairs result (take y.pairs (onto trial_before (reaching (bar floor) (flat_map (trial_at (quality_of y) q.now a b c) (part w.now far.at far.count))) (reaching (bar floor) (listed scores.old nodes.old count)))) }
{
    if let Some(floor) = floor {
        let x = corner_at(q, a, b, c);
        if x < floor {
            return count;
        }
        if outdone(scores, count, y.pairs, x) {
            return count;
        }
    }
    let ca = length(q, c, a);
    let h = Half { a, b, c, ab, ca };
    with_node(scores, nodes, count, y, w, q, far, h)
}

// The best pairs, and how many; those whose corner is below a floor that enough pairs reach are not gone through.
// The definition sorts by insertion from the last pair on, so the nodes are gone through backward.
pub fn best(
    w: &[u32],
    q: &[f64],
    scores: &mut [f64; ROOM],
    nodes: &mut [usize; NODES],
    y: Quality,
    near_at: usize,
    nears: usize,
    far_at: usize,
    fars: usize,
    a: usize,
    b: usize,
) -> usize
    requires pairs_le_room { y.pairs ≤ room }
    requires by_index { (n : ℕ) × Named n w.now q.now near_at nears far_at fars a b }
    ensures { (m : Mesh) (n : ℕ) → m.points ≡ first_points n q.now → Named n w.now q.now near_at nears far_at fars a b → Keeps scores.new nodes.new y.pairs result (trials (quality_of y) m a b (part w.now near_at nears) (part w.now far_at fars)) }
{
    let near = Part {
        at: near_at,
        count: nears,
    };
    let far = Part {
        at: far_at,
        count: fars,
    };
    let ab = length(q, a, b);
    let floor = floor_of(scores, nodes, y, w, q, near, far, a, b, ab);
    let mut k = 0;
    for i in (0..near.count).rev() {
        let c = w[near.at + i] as usize;
        k = with_reaching(scores, nodes, k, y, w, q, far, a, b, ab, c, floor);
    }
    k
}
