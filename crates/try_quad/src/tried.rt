// An attempt on a front edge: side nodes at both ends, then the pairs.
ghost use Rattle.std.specs.Prelude.{◌≡◌, List, ℕ, ◌<◌, Float};
ghost use Rattle.definition.specs.Cells.{Mesh, this_round};
ghost use Rattle.definition.specs.Attempt as attempt;
ghost use Rattle.definition.specs.Attempt.{Sides, try_both, try_first, try_along, try_quad};
ghost use Rattle.cells.specs.declared.counters.Counters.{Counters};
ghost use Rattle.joints.specs.Table.{Locks};
ghost use Rattle.traces.specs.Log.{Logged};
ghost use Rattle.plane.specs.Vectors.{vec};
ghost use Rattle.rules.specs.Settings.{settings_of};
ghost use Rattle.outcomes.specs.Ends.{Plain};
ghost use Rattle.try_quad.specs.Tries.{CanAttempt, TriedTo, Ends, Stands, Both, First, LocksIn, LogsIn};

use crate::stance::{inward_normal, target_of};
use cells::counters::Counters;
use cells::find::tri_owner;
use edge_candidates::wishes::TINY_LENGTH;
use flips::flip::third;
use outcomes::{End, Kind, Tried};
use pairs::{Begun, try_pairs};
use plane::sides::cross;
use plane::vectors::{from_to, length, norm, size_mismatch};
use rules::Rules;
use side_nodes::side::{Edge, Seat, Side, Stance, side_nodes};
use traces::Log;
use trials::kept::{NODES, ROOM};
use trials::ranked::best;

// The end of an attempt that goes no further than what was found at one end.
fn at_once(end: End, side: Side) -> Tried
    ensures { Plain end side.counters side.at side.inserted 0 0 result }
{
    Tried::without_trial(end, side.counters, side.at, side.inserted)
}

// The end of an attempt with the side nodes at a and what was found at b: the pairs are tried, in this round.
fn with_both(
    w: &mut [u32],
    q: &[f64],
    j: &[u32],
    t: &mut [u32],
    rules: Rules,
    round: usize,
    edge: Edge,
    nears: usize,
    far: Side,
) -> Tried
    requires { (base : List ℕ) × (q₀ : List Float) × (c₀ : Counters) × (cs : List ℕ) × (x : Sides) × Both w.old q₀ q.now rules c₀ edge.u edge.v edge.a edge.b nears far cs x × LocksIn j.now x × LogsIn base t.old far.at round x }
    ensures { (base : List ℕ) (q₀ : List Float) (c₀ : Counters) (cs : List ℕ) (x : Sides) (f : attempt.Stance) → Both w.old q₀ q.now rules c₀ edge.u edge.v edge.a edge.b nears far cs x → LocksIn j.now x → LogsIn base t.old far.at round x → f.edge ≡ (edge.u, edge.v) → f.a ≡ edge.a → f.b ≡ edge.b → TriedTo w.old w.new q₀ q.now base t.new rules c₀ (try_both (settings_of rules) f cs x) result }
{
    let found = match far.found {
        Ok(found) => found,
        Err(short) => return at_once(End::Short(short), far),
    };
    let Some(many) = found else {
        return at_once(End::Refused(Kind::Placement), far);
    };
    let mut scores = [0.0; ROOM];
    let mut nodes = [0; NODES];
    let count = best(
        w,
        q,
        &mut scores,
        &mut nodes,
        rules.quality,
        rules.lay.near_at(),
        nears,
        rules.lay.far_at(),
        many,
        edge.a,
        edge.b,
    );
    let begun = Begun {
        u: edge.u,
        v: edge.v,
        log: Log { at: far.at, round },
        inserted: far.inserted,
    };
    try_pairs(w, q, j, t, rules, far.counters, begun, &nodes, count)
}

// The end of an attempt with what was found at a: the side nodes at b are found, where a quarter right looks
// into the triangle, and then the pairs are tried.
fn with_first(
    w: &mut [u32],
    q: &mut [f64],
    j: &[u32],
    t: &mut [u32],
    rules: Rules,
    round: usize,
    stance: Stance,
    near: Side,
) -> Tried
    requires { (base : List ℕ) × (q₀ : List Float) × (c₀ : Counters) × (x : Sides) × First w.old q₀ q.old rules c₀ stance.edge.u stance.edge.v stance.edge.a stance.edge.b stance.seed near x × LocksIn j.now x × LogsIn base t.old near.at round x }
    ensures { (base : List ℕ) (q₀ : List Float) (c₀ : Counters) (x : Sides) (f : attempt.Stance) → First w.old q₀ q.old rules c₀ stance.edge.u stance.edge.v stance.edge.a stance.edge.b stance.seed near x → LocksIn j.now x → LogsIn base t.old near.at round x → Stands f stance.edge.u stance.edge.v stance.edge.a stance.edge.b stance.seed (vec stance.normal) stance.target stance.mismatch → TriedTo w.old w.new q₀ q.new base t.new rules c₀ (try_first (settings_of rules) f x) result }
{
    let found = match near.found {
        Ok(found) => found,
        Err(short) => return at_once(End::Short(short), near),
    };
    let Some(many) = found else {
        return at_once(End::Refused(Kind::Placement), near);
    };
    let seat = Seat {
        end: stance.edge.b,
        other: stance.edge.a,
        left: false,
        near: rules.lay.far_at(),
    };
    let far = side_nodes(
        w,
        q,
        t,
        rules,
        near.counters,
        near.at,
        stance,
        seat,
        near.inserted,
    );
    with_both(w, q, j, t, rules, round, stance.edge, many, far)
}

// An attempt on the edge from a to b with the seed's triangle on its left: at a a quarter left looks into it.
fn try_along(
    w: &mut [u32],
    q: &mut [f64],
    j: &[u32],
    t: &mut [u32],
    rules: Rules,
    c: Counters,
    log: Log,
    edge: Edge,
    seed: usize,
) -> Tried
    requires by_index { (base : List ℕ) × (m : Mesh) × CanAttempt w.old q.old rules c edge.u edge.v m × Locks j.now m.locked × Logged base t.old log.at m × (log.round ≡ this_round m) }
    requires ends { Ends c.points edge.u edge.v edge.a edge.b × (seed < rules.lay.slots) }
    ensures { (base : List ℕ) (m : Mesh) → CanAttempt w.old q.old rules c edge.u edge.v m → Locks j.now m.locked → Logged base t.old log.at m → log.round ≡ this_round m → TriedTo w.old w.new q.old q.new base t.new rules c (try_along (settings_of rules) m (edge.u, edge.v) seed edge.a edge.b) result }
{
    let span = length(q, edge.a, edge.b);
    let tangent = from_to(q, edge.a, edge.b);
    let long = norm(tangent);
    let target = target_of(rules.size, span);
    if target <= TINY_LENGTH {
        return Tried::without_trial(End::Refused(Kind::Placement), c, log.at, 0);
    }
    if long <= TINY_LENGTH {
        return Tried::without_trial(End::Refused(Kind::Placement), c, log.at, 0);
    }
    let normal = inward_normal(tangent, long);
    let mismatch = size_mismatch(span, target);
    let stance = Stance {
        edge,
        seed,
        normal,
        target,
        mismatch,
    };
    let seat = Seat {
        end: edge.a,
        other: edge.b,
        left: true,
        near: rules.lay.near_at(),
    };
    let near = side_nodes(w, q, t, rules, c, log.at, stance, seat, 0);
    with_first(w, q, j, t, rules, log.round, stance, near)
}

// An attempt on the edge u-v: its seed is the first triangle that owns it.
// What happens to the mesh is noted in the lent trace.
pub fn try_quad(
    w: &mut [u32],
    q: &mut [f64],
    j: &[u32],
    t: &mut [u32],
    rules: Rules,
    c: Counters,
    log: Log,
    u: usize,
    v: usize,
) -> Tried
    requires { (base : List ℕ) × (m : Mesh) × CanAttempt w.old q.old rules c u v m × Locks j.now m.locked × Logged base t.old log.at m × (log.round ≡ this_round m) }
    ensures { (base : List ℕ) (m : Mesh) → CanAttempt w.old q.old rules c u v m → Locks j.now m.locked → Logged base t.old log.at m → log.round ≡ this_round m → TriedTo w.old w.new q.old q.new base t.new rules c (try_quad (settings_of rules) m (u, v)) result }
{
    let seed = tri_owner(w, rules.lay, u, v);
    if seed >= rules.lay.slots {
        return Tried::without_trial(End::Refused(Kind::Placement), c, log.at, 0);
    }
    let apex = third(w, rules.lay.slots, seed, u, v);
    if cross(q, u, v, apex) > 0.0 {
        let up = Edge { u, v, a: u, b: v };
        return try_along(w, q, j, t, rules, c, log, up, seed);
    }
    let down = Edge { u, v, a: v, b: u };
    try_along(w, q, j, t, rules, c, log, down, seed)
}
