// One attempt: counted, tested against the limits, made, and settled.
ghost use Rattle.std.specs.Prelude.{◌≡◌, ◌||◌, List, ◌∷◌, ℕ, ◌≤◌, ltb};
ghost use Rattle.definition.specs.Numbers.{max_triangles};
ghost use Rattle.definition.specs.Plane.{Edge};
ghost use Rattle.definition.specs.Front.{State, attempt};
ghost use Rattle.joints.specs.Table.{Locks};
ghost use Rattle.rules.specs.Settings.{settings_of};
ghost use Rattle.attempts.specs.Runs.{Begun, setup, Goes, Makes, StepTo};

use cells::counters::Counters;
use cells::find::is_front;
use outcomes::{End, Kind, Tried};
use rules::Rules;
use settling::settle::settle;
use settling::standing::{Going, Standing, Step};
use traces::Log;
use try_quad::tried::try_quad;

// The most live triangles: so many for each given one, and so many more.
pub const LIVE_EACH: usize = 4;

pub const LIVE_MORE: usize = 100;

// A limit is passed, the attempt in hand counted.
fn past_limit(most: usize, given: usize, c: Counters) -> bool
    requires { given ≤ 4096 }
    ensures { result ≡ (ltb most c.attempts || ltb (max_triangles given) c.live) }
{
    if c.attempts > most {
        return true;
    }
    c.live > LIVE_EACH * given + LIVE_MORE
}

// The attempt on the edge u-v is made; g has counted it, and every round before placed one quad.
// An edge that a flip of its round took off the front is refused under placement.
fn make_attempt(
    w: &mut [u32],
    q: &mut [f64],
    j: &[u32],
    quads: &mut [u32],
    t: &mut [u32],
    rules: Rules,
    g: Standing,
    u: usize,
    v: usize,
) -> Step
    requires { (k : Begun) × (st : State) × (es : List Edge) × Makes w.old q.old quads.old t.old (setup rules k) g st (u, v) es × Locks j.now k.locked }
    ensures { (k : Begun) (st : State) (es : List Edge) → Makes w.old q.old quads.old t.old (setup rules k) g st (u, v) es → Locks j.now k.locked → StepTo w.old w.new q.new quads.new t.new (setup rules k) es (attempt (settings_of rules) rules.given st (u, v)) result }
{
    let c = g.counters;
    if !is_front(w, rules.lay, u, v) {
        let off = Tried::without_trial(End::Refused(Kind::Placement), c, g.words, 0);
        return settle(w, quads, rules.lay, g, off, u, v);
    }
    let round = g.quads + 1;
    let log = Log { at: g.words, round };
    let made = try_quad(w, q, j, t, rules, c, log, u, v);
    settle(w, quads, rules.lay, g, made, u, v)
}

// One attempt on the edge u-v, from the standing `before`. The attempt that passes a limit is counted and not made.
pub fn attempt_one(
    w: &mut [u32],
    q: &mut [f64],
    j: &[u32],
    quads: &mut [u32],
    t: &mut [u32],
    rules: Rules,
    before: Standing,
    u: usize,
    v: usize,
) -> Step
    requires { (k : Begun) × (st : State) × (es : List Edge) × Goes w.old q.old quads.old t.old (setup rules k) before st ((u, v) ∷ es) × Locks j.now k.locked }
    ensures { (k : Begun) (st : State) (es : List Edge) → Goes w.old q.old quads.old t.old (setup rules k) before st ((u, v) ∷ es) → Locks j.now k.locked → StepTo w.old w.new q.new quads.new t.new (setup rules k) es (attempt (settings_of rules) rules.given st (u, v)) result }
{
    let g = before.counted();
    let c = g.counters;
    if past_limit(rules.attempts, rules.given, c) {
        return Step {
            kind: Going::Limited,
            standing: g.limited(),
        };
    }
    make_attempt(w, q, j, quads, t, rules, g, u, v)
}
