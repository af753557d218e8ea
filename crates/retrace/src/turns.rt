// A flip done again.
ghost use Rattle.std.specs.Prelude.{◌≡◌, ◌&&◌, List, ℕ, ◌+◌, ◌*◌, ◌^◌, ◌<◌, ◌≤◌, length, Float};
ghost use Rattle.definition.specs.Lists.{any};
ghost use Rattle.definition.specs.Numbers.{Settings};
ghost use Rattle.definition.specs.Cells.{Mesh, was_flipped, key, same_edge, has_edge_in, quad_edges};
ghost use Rattle.definition.specs.Call.{quad_at, first_quads};
ghost use Rattle.definition.specs.Replay.{redo};
ghost use Rattle.joints.specs.Table.{Locks};
ghost use Rattle.retrace.specs.Plays.{state, played, Plays, Small, EntryTo};

use crate::Playing;
use crate::quads::QUAD;
use cells::layout::Layout;
use flips::flip::{Turned, flip};
use refusals::Refusal;
use traces::FLIP;
use words::wide;

// The edge u-v, the smaller node first, lies between a and b.
fn is_side(a: usize, b: usize, u: usize, v: usize) -> bool
    requires { u < v }
    ensures { result ≡ same_edge (u, v) (key a b) }
{
    if a == u {
        return b == v;
    }
    if a == v {
        return b == u;
    }
    false
}

// Quad i of the slice has the edge u-v.
fn has_side(quads: &[u32], i: usize, u: usize, v: usize) -> bool
    requires i_in_bounds { (8 * i + 8 ≤ length quads.now) × (i < 16384) }
    requires u_lt_v { u < v }
    ensures { result ≡ has_edge_in (quad_edges (quad_at quads.now i)) (u, v) }
{
    let at = QUAD * i;
    let a = wide(quads[at]);
    let b = wide(quads[at + 1]);
    let c = wide(quads[at + 2]);
    let d = wide(quads[at + 3]);
    if is_side(a, b, u, v) {
        return true;
    }
    if is_side(b, c, u, v) {
        return true;
    }
    if is_side(c, d, u, v) {
        return true;
    }
    is_side(d, a, u, v)
}

// One of the k quads at the front of the slice has the edge u-v.
fn quad_has(quads: &[u32], k: usize, u: usize, v: usize) -> bool
    requires k_in_bounds { (8 * k ≤ length quads.now) × (k ≤ 16384) }
    requires u_lt_v { u < v }
    ensures { result ≡ any (λ q. has_edge_in (quad_edges q) (u, v)) (first_quads k quads.now) }
{
    for i in 0..k {
        if has_side(quads, i, u, v) {
            return true;
        }
    }
    false
}

// A quad that has a node twice is not among the stored cells.
// Where there is one, the edge u-v is looked for among the k quads.
fn hides(quads: &[u32], odd: bool, k: usize, u: usize, v: usize) -> bool
    requires k_in_bounds { (8 * k ≤ length quads.now) × (k ≤ 16384) }
    requires u_lt_v { u < v }
    ensures { result ≡ (odd && any (λ q. has_edge_in (quad_edges q) (u, v)) (first_quads k quads.now)) }
{
    if !odd {
        return false;
    }
    quad_has(quads, k, u, v)
}

// The edge u-v is flipped: 12 where it is not in that node order, names a node that is not there, or does not flip.
pub fn flip_at(
    points: &[f64],
    quads: &[u32],
    work: &mut [u32],
    j: &[u32],
    lay: Layout,
    g: Playing,
    u: usize,
    v: usize,
) -> Result<Playing, Refusal>
    requires by_index { (q₀ : List Float) × (old : List ℕ) × (m : Mesh) × Plays work.old points.now quads.now lay.slots lay.points q₀ old (state g) m × Small quads.now lay.slots lay.points × Locks j.now m.locked }
    requires at_bound { g.at + 3 < 2 ^ 64 }
    ensures { (q₀ : List Float) (old : List ℕ) (m : Mesh) (t : Settings) → Plays work.old points.now quads.now lay.slots lay.points q₀ old (state g) m → Locks j.now m.locked → EntryTo work.old work.new points.now points.now quads.now quads.now lay.slots lay.points q₀ old (state g) 3 (redo t m (was_flipped (u, v))) (played result) }
{
    if u >= v {
        return Err(Refusal::BadTrace);
    }
    if v >= g.points {
        return Err(Refusal::BadTrace);
    }
    if hides(quads, g.odd, g.quads, u, v) {
        return Err(Refusal::BadTrace);
    }
    let t = flip(work, points, j, lay, u, v, true);
    match t {
        Turned::Not => Err(Refusal::BadTrace),
        Turned::Short => Err(Refusal::BadTrace),
        Turned::Flipped => Ok(Playing {
            at: g.at + FLIP,
            used: g.used,
            points: g.points,
            quads: g.quads,
            odd: g.odd,
        }),
    }
}
