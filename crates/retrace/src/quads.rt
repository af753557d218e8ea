// A quad placed again.
ghost use Rattle.std.specs.Prelude.{◌≡◌, not, ◌||◌, List, [], ◌∷◌, ◌++◌, ℕ, ◌+◌, ◌*◌, ◌<◌, ◌≤◌, ltb, length, take, drop, Float};
ghost use Rattle.definition.specs.Lists.{all};
ghost use Rattle.definition.specs.Numbers.{Settings};
ghost use Rattle.definition.specs.Plane.{Edge};
ghost use Rattle.definition.specs.Cells.{Mesh, was_placed};
ghost use Rattle.definition.specs.Replay.{entered_quad, redo};
ghost use Rattle.rules.specs.Settings.{Suits};
ghost use Rattle.cells.specs.Rep.{Rep};
ghost use Rattle.meshes.specs.Changes.{born_of_nodes};
ghost use Rattle.retrace.specs.Stored.{four, stored};
ghost use Rattle.retrace.specs.Takes.{TakesOut, CanPlace, Places, HasSlots, PutsWords};
ghost use Rattle.retrace.specs.Plays.{state, played, Plays, Small, EntryTo};

use crate::Playing;
use cells::layout::Layout;
use meshes::store::{push_quad, remove_cell};
use refusals::Refusal;
use traces::copy_words;
use words::wide;

// Words of a quad's entry before its slots, and of a quad in its slice.
pub const HEAD: usize = 9;

pub const QUAD: usize = 8;

// One of the two is true.
fn either(a: bool, b: bool) -> bool
    ensures { result ≡ (a || b) }
{
    if a {
        return true;
    }
    b
}

// Each of four nodes is below n.
fn known(n: usize, a: usize, b: usize, c: usize, d: usize) -> bool
    ensures { result ≡ all (λ v. ltb v n) (a ∷ b ∷ c ∷ d ∷ []) }
{
    if a >= n {
        return false;
    }
    if b >= n {
        return false;
    }
    if c >= n {
        return false;
    }
    d < n
}

// Two of the four nodes are one.
fn twice(a: usize, b: usize, c: usize, d: usize) -> bool
    ensures { (e : Edge) (round gone : ℕ) → result ≡ not (four (born_of_nodes e round gone a b c d)) }
{
    if a == b {
        return true;
    }
    if a == c {
        return true;
    }
    if a == d {
        return true;
    }
    if b == c {
        return true;
    }
    if b == d {
        return true;
    }
    c == d
}

// The n slots that stand in the trace from `from` on are emptied one after the other.
// The answer is false where one holds no triangle when its turn comes.
fn take_out(work: &mut [u32], trace: &[u32], lay: Layout, from: usize, n: usize) -> bool
    requires rep { (m : Mesh) × Rep work.old lay.slots lay.points m }
    requires n_in_bounds { from + n ≤ length trace.now }
    ensures { TakesOut work.old work.new trace.now lay.slots lay.points from n result }
{
    for k in 0..n {
        let i = wide(trace[from + k]);
        if i >= lay.slots {
            return false;
        }
        if work[i] != 3 {
            return false;
        }
        remove_cell(work, lay, i);
    }
    true
}

// The quad a b c d takes slot i, the next one, and is stored where no node stands in it twice.
// The answer is whether one does.
fn place(work: &mut [u32], lay: Layout, i: usize, a: usize, b: usize, c: usize, d: usize) -> bool
    requires { (m : Mesh) × Rep work.old lay.slots lay.points (stored m) × CanPlace m lay.slots i a b c d }
    ensures { Places work.old work.new lay.slots lay.points i a b c d result }
{
    if twice(a, b, c, d) {
        return true;
    }
    push_quad(work, lay, i, a, b, c, d);
    false
}

// The eight words of the quad of the entry at `from` come behind the k quads of the slice.
fn put_words(quads: &mut [u32], trace: &[u32], from: usize, k: usize)
    requires k_in_bounds { (8 * k + 8 ≤ length quads.old) × (k < 16384) }
    requires from_in_bounds { from + 9 ≤ length trace.now }
    ensures { PutsWords quads.old quads.new trace.now from k }
{
    let at = QUAD * k;
    copy_words(&mut quads[at..], trace, from + 1, QUAD);
}

// The quad of the entry at hand takes the place of the triangles in its n slots.
// 12 where it names a node that is not there or a slot that holds no triangle or stands twice; then 9.
pub fn quad_at(
    quads: &mut [u32],
    work: &mut [u32],
    trace: &[u32],
    lay: Layout,
    g: Playing,
    n: usize,
) -> Result<Playing, Refusal>
    requires by_index { (q : List Float) × (q₀ : List Float) × (old : List ℕ) × (m : Mesh) × Plays work.old q quads.old lay.slots lay.points q₀ old (state g) m × Small quads.old lay.slots lay.points }
    requires has_slots { HasSlots trace.now g.at n }
    ensures { (q q₀ : List Float) (old : List ℕ) (m : Mesh) (t : Settings) → Suits t lay.slots lay.points → Plays work.old q quads.old lay.slots lay.points q₀ old (state g) m → EntryTo work.old work.new q q quads.old quads.new lay.slots lay.points q₀ old (state g) (9 + n) (redo t m (was_placed (entered_quad (drop g.at trace.now)) (take n (drop 9 (drop g.at trace.now))))) (played result) }
{
    let from = g.at;
    let a = wide(trace[from + 1]);
    let b = wide(trace[from + 2]);
    let c = wide(trace[from + 3]);
    let d = wide(trace[from + 4]);
    if !known(g.points, a, b, c, d) {
        return Err(Refusal::BadTrace);
    }
    if !take_out(work, trace, lay, from + HEAD, n) {
        return Err(Refusal::BadTrace);
    }
    if g.used >= lay.slots {
        return Err(Refusal::NoSlots);
    }
    let odd = place(work, lay, g.used, a, b, c, d);
    put_words(quads, trace, from, g.quads);
    let any = either(g.odd, odd);
    Ok(Playing {
        at: from + HEAD + n,
        used: g.used + 1,
        points: g.points,
        quads: g.quads + 1,
        odd: any,
    })
}
