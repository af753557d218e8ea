// The entries of a trace, one after the other.
ghost use Rattle.std.specs.Prelude.{◌≡◌, false, List, ℕ, ◌<◌, length, drop, Float};
ghost use Rattle.definition.specs.Numbers.{Settings};
ghost use Rattle.definition.specs.Cells.{Mesh};
ghost use Rattle.definition.specs.Replay.{read_entry, replay_words};
ghost use Rattle.joints.specs.Table.{Locks};
ghost use Rattle.rules.specs.Settings.{Suits};
ghost use Rattle.retrace.specs.Plays.{state, played, Plays, Small};
ghost use Rattle.retrace.specs.Reads.{ReadTo, AtKind, PlayTo};

use crate::Playing;
use crate::doubles::double;
use crate::quads::{HEAD, quad_at};
use crate::splits::split_at;
use crate::turns::flip_at;
use cells::layout::Layout;
use refusals::Refusal;
use traces::{FLIP, SPLIT};
use words::wide;

// The kinds of entries.
const SPLITS: u32 = 1;

const FLIPS: u32 = 2;

const QUADS: u32 = 4;

// The split that the entry at hand says; 12 where it is cut short.
fn split_entry(
    points: &mut [f64],
    work: &mut [u32],
    trace: &[u32],
    lay: Layout,
    g: Playing,
) -> Result<Playing, Refusal>
    requires by_index { (quads : List ℕ) × (q₀ : List Float) × (old : List ℕ) × (m : Mesh) × Plays work.old points.old quads lay.slots lay.points q₀ old (state g) m × Small quads lay.slots lay.points }
    requires at_kind { AtKind trace.now g.at 1 }
    ensures { (quads : List ℕ) (q₀ : List Float) (old : List ℕ) (m : Mesh) (t : Settings) → Suits t lay.slots lay.points → Plays work.old points.old quads lay.slots lay.points q₀ old (state g) m → ReadTo work.old work.new points.old points.new quads quads lay.slots lay.points q₀ old (state g) trace.now t m (read_entry (drop g.at trace.now)) (played result) }
{
    let at = g.at;
    if trace.len() - at < SPLIT {
        return Err(Refusal::BadTrace);
    }
    let i = wide(trace[at + 1]);
    let x = double(trace[at + 2], trace[at + 3]);
    let y = double(trace[at + 4], trace[at + 5]);
    split_at(points, work, lay, g, i, x, y)
}

// The flip that the entry at hand says; 12 where it is cut short.
fn flip_entry(
    points: &[f64],
    quads: &[u32],
    work: &mut [u32],
    trace: &[u32],
    j: &[u32],
    lay: Layout,
    g: Playing,
) -> Result<Playing, Refusal>
    requires by_index { (q₀ : List Float) × (old : List ℕ) × (m : Mesh) × Plays work.old points.now quads.now lay.slots lay.points q₀ old (state g) m × Small quads.now lay.slots lay.points }
    requires at_kind { AtKind trace.now g.at 2 × Locks j.now (λ e. false) }
    ensures { (q₀ : List Float) (old : List ℕ) (m : Mesh) (t : Settings) → Plays work.old points.now quads.now lay.slots lay.points q₀ old (state g) m → ReadTo work.old work.new points.now points.now quads.now quads.now lay.slots lay.points q₀ old (state g) trace.now t m (read_entry (drop g.at trace.now)) (played result) }
{
    let at = g.at;
    if trace.len() - at < FLIP {
        return Err(Refusal::BadTrace);
    }
    let u = wide(trace[at + 1]);
    let v = wide(trace[at + 2]);
    flip_at(points, quads, work, j, lay, g, u, v)
}

// The quad that the entry at hand says; 12 where it is cut short, its slots too.
fn quad_entry(
    quads: &mut [u32],
    work: &mut [u32],
    trace: &[u32],
    lay: Layout,
    g: Playing,
) -> Result<Playing, Refusal>
    requires by_index { (q : List Float) × (q₀ : List Float) × (old : List ℕ) × (m : Mesh) × Plays work.old q quads.old lay.slots lay.points q₀ old (state g) m × Small quads.old lay.slots lay.points }
    requires at_kind { AtKind trace.now g.at 4 }
    ensures { (q q₀ : List Float) (old : List ℕ) (m : Mesh) (t : Settings) → Suits t lay.slots lay.points → Plays work.old q quads.old lay.slots lay.points q₀ old (state g) m → ReadTo work.old work.new q q quads.old quads.new lay.slots lay.points q₀ old (state g) trace.now t m (read_entry (drop g.at trace.now)) (played result) }
{
    let at = g.at;
    let left = trace.len() - at;
    if left < HEAD {
        return Err(Refusal::BadTrace);
    }
    let n = wide(trace[at + 8]);
    if left - HEAD < n {
        return Err(Refusal::BadTrace);
    }
    quad_at(quads, work, trace, lay, g, n)
}

// The entry at hand, by its kind; 12 where there is no such kind.
fn one_entry(
    points: &mut [f64],
    quads: &mut [u32],
    work: &mut [u32],
    trace: &[u32],
    j: &[u32],
    lay: Layout,
    g: Playing,
) -> Result<Playing, Refusal>
    requires by_index { (q₀ : List Float) × (old : List ℕ) × (m : Mesh) × Plays work.old points.old quads.old lay.slots lay.points q₀ old (state g) m × Small quads.old lay.slots lay.points }
    requires at_in_bounds { (g.at < length trace.now) × Locks j.now (λ e. false) }
    ensures { (q₀ : List Float) (old : List ℕ) (m : Mesh) (t : Settings) → Suits t lay.slots lay.points → Plays work.old points.old quads.old lay.slots lay.points q₀ old (state g) m → ReadTo work.old work.new points.old points.new quads.old quads.new lay.slots lay.points q₀ old (state g) trace.now t m (read_entry (drop g.at trace.now)) (played result) }
{
    let at = g.at;
    let kind = trace[at];
    if kind == SPLITS {
        return split_entry(points, work, trace, lay, g);
    }
    if kind == FLIPS {
        return flip_entry(points, quads, work, trace, j, lay, g);
    }
    if kind == QUADS {
        return quad_entry(quads, work, trace, lay, g);
    }
    Err(Refusal::BadTrace)
}

// Every entry of the trace, up to one that is refused.
pub fn play(
    points: &mut [f64],
    quads: &mut [u32],
    work: &mut [u32],
    trace: &[u32],
    j: &[u32],
    lay: Layout,
    start: Playing,
) -> Result<Playing, Refusal>
    requires by_index { (q₀ : List Float) × (old : List ℕ) × (m : Mesh) × (t : Settings) × Suits t lay.slots lay.points × Plays work.old points.old quads.old lay.slots lay.points q₀ old (state start) m × Small quads.old lay.slots lay.points }
    requires at_value { (start.at ≡ 0) × Locks j.now (λ e. false) }
    ensures { (q₀ : List Float) (old : List ℕ) (m : Mesh) (t : Settings) → Suits t lay.slots lay.points → Plays work.old points.old quads.old lay.slots lay.points q₀ old (state start) m → PlayTo work.old work.new points.new quads.new lay.slots lay.points q₀ old (replay_words t m trace.now) (played result) }
{
    let mut g = start;
    // Kept (3): a step goes over an entry of as many words as it says, not to the next index.
    while g.at < trace.len() {
        g = one_entry(points, quads, work, trace, j, lay, g)?;
    }
    Ok(g)
}
