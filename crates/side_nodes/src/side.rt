// Candidates at an end of a front edge, or a node inserted where there is none.
ghost use Rattle.std.specs.Prelude.{◌≡◌, List, ℕ};
ghost use Rattle.definition.specs.Cells.{Mesh, node_at};
ghost use Rattle.definition.specs.Insertion.{insert_along};
ghost use Rattle.definition.specs.Attempt as attempt;
ghost use Rattle.definition.specs.Attempt.{sides_by, side_nodes};
ghost use Rattle.plane.specs.Vectors.{vec};
ghost use Rattle.edge_candidates.specs.Wanted.{turn};
ghost use Rattle.rules.specs.Settings.{settings_of};
ghost use Rattle.outcomes.specs.Ends.{only_inserted};
ghost use Rattle.traces.specs.Log.{Logged};
ghost use Rattle.side_nodes.specs.Sides.{CanSeek, GoesBy, SidesTo};

use candidates::aim::Aim;
use candidates::candidates;
use cells::counters::Counters;
use insertion::insert::insert_along;
use outcomes::Shortage;
use plane::vectors::Vec;
use rules::Rules;

// The front edge u-v, taken from a to b.
#[derive(Clone, Copy)]
pub struct Edge {
    pub u: usize,
    pub v: usize,
    pub a: usize,
    pub b: usize,
}

// What an attempt goes by at both ends: the edge, with the seed's triangle on its left; the seed's slot,
// the inward normal, the target, and whether the edge's length is off it.
#[derive(Clone, Copy)]
pub struct Stance {
    pub edge: Edge,
    pub seed: usize,
    pub normal: Vec,
    pub target: f64,
    pub mismatch: bool,
}

// An end of the edge and the other one, whether a quarter left looks into the triangle there,
// and where the side nodes come to.
#[derive(Clone, Copy)]
pub struct Seat {
    pub end: usize,
    pub other: usize,
    pub left: bool,
    pub near: usize,
}

// How many side nodes were found at an end, if any, or what is left too little of and the run ends;
// the insertions so far, the counters then, and where the trace's next entry goes.
#[derive(Clone, Copy)]
pub struct Side {
    pub found: Result<Option<usize>, Shortage>,
    pub inserted: usize,
    pub counters: Counters,
    pub at: usize,
}

// A node inserted along the normal is the only side node.
fn by_insertion(
    w: &mut [u32],
    q: &mut [f64],
    t: &mut [u32],
    rules: Rules,
    c: Counters,
    at: usize,
    stance: Stance,
    seat: Seat,
    inserted: usize,
) -> Side
    requires { (base : List ℕ) × (m : Mesh) × CanSeek w.old q.old rules c seat.near seat.end seat.other stance.seed inserted m × Logged base t.old at m }
    ensures { (base : List ℕ) (m : Mesh) → CanSeek w.old q.old rules c seat.near seat.end seat.other stance.seed inserted m → Logged base t.old at m → SidesTo w.old w.new q.old q.new base t.new rules seat.near c (sides_by (only_inserted inserted) m (insert_along (settings_of rules) m stance.seed (node_at m seat.end) (vec stance.normal) stance.target)) result }
{
    let n = c.points;
    let used = c.used;
    let near = seat.near;
    let normal = stance.normal;
    let place = insert_along(
        w,
        q,
        t,
        rules.lay,
        used,
        n,
        rules.bucket,
        at,
        stance.seed,
        seat.end,
        normal,
        stance.target,
    );
    let place = match place {
        Ok(place) => place,
        Err(short) => {
            return Side {
                found: Err(short),
                inserted,
                counters: c,
                at,
            };
        }
    };
    let Some(next) = place else {
        return Side {
            found: Ok(None),
            inserted,
            counters: c,
            at,
        };
    };
    w[near] = n as u32;
    Side {
        found: Ok(Some(1)),
        inserted: inserted + 1,
        counters: c.split(),
        at: next,
    }
}

// The side nodes at an end of the edge: the candidates,
// or, where there is none and the edge's length is off the target, a node inserted.
// Kept (4): the aim is drawn from the seat, the stance and the rules at once, so a From of all three is no plainer.
pub fn side_nodes(
    w: &mut [u32],
    q: &mut [f64],
    t: &mut [u32],
    rules: Rules,
    c: Counters,
    at: usize,
    stance: Stance,
    seat: Seat,
    inserted: usize,
) -> Side
    requires { (base : List ℕ) × (m : Mesh) × CanSeek w.old q.old rules c seat.near seat.end seat.other stance.seed inserted m × Logged base t.old at m }
    ensures { (base : List ℕ) (m : Mesh) (f : attempt.Stance) → CanSeek w.old q.old rules c seat.near seat.end seat.other stance.seed inserted m → Logged base t.old at m → GoesBy f stance → SidesTo w.old w.new q.old q.new base t.new rules seat.near c (side_nodes (settings_of rules) (turn seat.left) f (only_inserted inserted) m seat.end seat.other) result }
{
    let n = c.points;
    let used = c.used;
    let normal = stance.normal;
    let quality = rules.quality;
    let aim = Aim {
        left: seat.left,
        end: seat.end,
        other: seat.other,
        normal,
        target: stance.target,
        quality,
    };
    let k = candidates(w, q, rules.lay, used, n, seat.near, stance.seed, aim);
    if k > 0 {
        return Side {
            found: Ok(Some(k)),
            inserted,
            counters: c,
            at,
        };
    }
    let mismatch = stance.mismatch;
    if !mismatch {
        return Side {
            found: Ok(None),
            inserted,
            counters: c,
            at,
        };
    }
    by_insertion(w, q, t, rules, c, at, stance, seat, inserted)
}
