// An edge recovered by flips.
ghost use Rattle.std.specs.Prelude.{◌≡◌, List, ℕ, ◌≤◌};
ghost use Rattle.definition.specs.Cells.{Mesh};
ghost use Rattle.joints.specs.Table.{Locks};
ghost use Rattle.traces.specs.Log.{Logged};
ghost use Rattle.crossings.specs.Cross.{Known, Segment, NoneBelow};
ghost use Rattle.flips.specs.Recover.{FlipsOnce, Recovers};

use crate::flip::{Turned, below_flip, flip};
use cells::find::has_edge;
use cells::layout::Layout;
use crossings::cross::first_crossing;
use traces::{FLIP, fits, note_flip};

// Whether an edge was flipped, whether only its entry did not fit, where the next entry goes,
// and a node below which no edge crosses then.
#[derive(Clone, Copy)]
pub struct Flipping {
    pub made: bool,
    pub short: bool,
    pub at: usize,
    pub from: usize,
}

// Whether the edge is in the mesh after the recovery, whether a flip's entry did not fit, the flips made,
// and where the next entry goes.
#[derive(Clone, Copy)]
pub struct Recovered {
    pub there: bool,
    pub short: bool,
    pub flips: usize,
    pub at: usize,
}

// The first edge that crosses u-v is flipped, and the flip noted,
// where none crosses whose smaller node is below `from`.
fn flip_crossing(
    w: &mut [u32],
    q: &[f64],
    j: &[u32],
    t: &mut [u32],
    lay: Layout,
    n: usize,
    bucket: f64,
    at: usize,
    u: usize,
    v: usize,
    from: usize,
) -> Flipping
    requires by_index { (base : List ℕ) × (m : Mesh) × Known w.old q.now lay.slots lay.points n bucket m × Locks j.now m.locked × Logged base t.old at m × NoneBelow m u v from }
    requires segment { Segment n u v }
    requires from_le_n { from ≤ n }
    ensures { FlipsOnce w.old w.new q.now j.now t.old t.new lay.slots lay.points n bucket at u v from result }
{
    let e = first_crossing(w, q, lay, n, bucket, u, v, from);
    let Some(x) = e else {
        return Flipping {
            made: false,
            short: false,
            at,
            from,
        };
    };
    let low = below_flip(w, lay, x.0, x.1);
    let room = fits(t, at, FLIP);
    let f = flip(w, q, j, lay, x.0, x.1, room);
    match f {
        Turned::Not => Flipping {
            made: false,
            short: false,
            at,
            from,
        },
        Turned::Short => Flipping {
            made: false,
            short: true,
            at,
            from,
        },
        Turned::Flipped => {
            let next = note_flip(t, at, x.0, x.1);
            Flipping {
                made: true,
                short: false,
                at: next,
                from: low,
            }
        }
    }
}

// The edge u-v recovered by flips of edges that cross it, at most as many as slots were given out;
// the flips made stay.
// The recovery ends where a flip's entry does not fit.
pub fn recover(
    w: &mut [u32],
    q: &[f64],
    j: &[u32],
    t: &mut [u32],
    lay: Layout,
    n: usize,
    used: usize,
    bucket: f64,
    at: usize,
    u: usize,
    v: usize,
) -> Recovered
    requires by_index { (base : List ℕ) × (m : Mesh) × Known w.old q.now lay.slots lay.points n bucket m × (m.used ≡ used) × Locks j.now m.locked × Logged base t.old at m }
    requires segment { Segment n u v }
    ensures { Recovers w.old w.new q.now j.now t.old t.new lay.slots lay.points n used bucket at u v result }
{
    let mut at = at;
    let mut from = 0;
    for k in 0..used {
        if has_edge(w, lay, u, v) {
            return Recovered {
                there: true,
                short: false,
                flips: k,
                at,
            };
        }
        let f = flip_crossing(w, q, j, t, lay, n, bucket, at, u, v, from);
        at = f.at;
        from = f.from;
        if !f.made {
            return Recovered {
                there: false,
                short: f.short,
                flips: k,
                at,
            };
        }
    }
    let there = has_edge(w, lay, u, v);
    Recovered {
        there,
        short: false,
        flips: used,
        at,
    }
}
