// Entries of the lent trace: an empty one takes none.
#![tactic(auto)]

ghost use Rattle.std.specs.Prelude.{◌≡◌, List, ◌++◌, ℕ, ◌+◌, ◌^◌, ◌<◌, ◌≤◌, length, take, drop};
ghost use Rattle.definition.specs.Plane.{flat};
ghost use Rattle.definition.specs.Cells.{Quad, Event, was_split, was_flipped, Mesh};
ghost use Rattle.definition.specs.Trace.{entry, in_room};
ghost use Rattle.traces.specs.Log.{Logged, Notes, Enters, Words, Placing, heads};

use words::bits_of;

// Words of an entry: of a split, of a flip, and of a quad before its slots.
pub const SPLIT: usize = 6;

pub const FLIP: usize = 3;

pub const QUAD: usize = 9;

// As many numbers as a word has.
const WORD: u64 = 4294967296;

// Where the next entry goes, and the round in which a quad is placed.
#[derive(Clone, Copy)]
pub struct Log {
    pub at: usize,
    pub round: usize,
}

// A quad's nodes, the edge it grew from, the smaller node first, and its round.
#[derive(Clone, Copy)]
pub struct Grown {
    pub n0: usize,
    pub n1: usize,
    pub n2: usize,
    pub n3: usize,
    pub u: usize,
    pub v: usize,
    pub round: usize,
}

// An entry of n words more fits the trace, or none is lent.
pub fn fits(t: &[u32], at: usize, n: usize) -> bool
    ensures { (base : List ℕ) (m m' : Mesh) (v : Event) → Logged base t.now at m → Notes v m m' → length (entry v) ≡ n → result ≡ in_room m' }
{
    if t.len() == 0 {
        return true;
    }
    if at > t.len() {
        return false;
    }
    t.len() - at >= n
}

// The entry of a flip of the edge u-v at the front of a part of the trace.
fn write_flip(t: &mut [u32], u: usize, v: usize)
    requires in_bounds { 3 ≤ length t.old }
    requires u_bound { (u < 2 ^ 32) × (v < 2 ^ 32) }
    ensures { t.new ≡ entry (was_flipped (u, v)) ++ drop 3 t.old }
{
    t[0] = 2;
    t[1] = u as u32;
    t[2] = v as u32;
}

// The entry of a split of the triangle in slot i at the point x, y.
fn write_split(t: &mut [u32], i: usize, x: f64, y: f64)
    requires in_bounds { 6 ≤ length t.old }
    requires i_bound { i < 2 ^ 32 }
    ensures { t.new ≡ entry (was_split i (flat x y)) ++ drop 6 t.old }
{
    let a = bits_of(x);
    let b = bits_of(y);
    t[0] = 1;
    t[1] = i as u32;
    t[2] = (a % WORD) as u32;
    t[3] = (a / WORD) as u32;
    t[4] = (b % WORD) as u32;
    t[5] = (b / WORD) as u32;
}

// The entry of the quad g on n slots, up to their number.
fn write_quad(t: &mut [u32], g: Grown, n: usize)
    requires in_bounds { 9 ≤ length t.old }
    requires words { Words g × (n < 2 ^ 32) }
    ensures { t.new ≡ heads g n ++ drop 9 t.old }
{
    t[0] = 4;
    t[1] = g.n0 as u32;
    t[2] = g.n1 as u32;
    t[3] = g.n2 as u32;
    t[4] = g.n3 as u32;
    t[5] = g.u as u32;
    t[6] = g.v as u32;
    t[7] = g.round as u32;
    t[8] = n as u32;
}

// Kept (6): w holds all the mesh's words, and only n of them are copied.
// The n words of w from `from` on come to the front of t.
// By a loop, since `copy_from_slice` would have the archive for C ask for memmove.
pub fn copy_words(t: &mut [u32], w: &[u32], from: usize, n: usize)
    requires n_in_bounds { n ≤ length t.old }
    requires n_in_bounds_2 { from + n ≤ length w.now }
    ensures { t.new ≡ take n (drop from w.now) ++ drop n t.old }
{
    for k in 0..n {
        t[k] = w[from + k];
    }
}

// The entry of a flip of the edge u-v comes to `at`; where the next one goes.
pub fn note_flip(t: &mut [u32], at: usize, u: usize, v: usize) -> usize
    requires by_index { (base : List ℕ) × (m : Mesh) × (m' : Mesh) × Logged base t.old at m × Enters (was_flipped (u, v)) m m' }
    requires u_bound { (u < 2 ^ 32) × (v < 2 ^ 32) }
    ensures { (base : List ℕ) (m m' : Mesh) → Logged base t.old at m → Enters (was_flipped (u, v)) m m' → Logged base t.new result m' }
{
    if t.len() == 0 {
        return at;
    }
    write_flip(&mut t[at..], u, v);
    at + FLIP
}

// The entry of a split of the triangle in slot i at the point x, y comes to `at`; where the next one goes.
pub fn note_split(t: &mut [u32], at: usize, i: usize, x: f64, y: f64) -> usize
    requires by_index { (base : List ℕ) × (m : Mesh) × (m' : Mesh) × Logged base t.old at m × Enters (was_split i (flat x y)) m m' }
    requires i_bound { i < 2 ^ 32 }
    ensures { (base : List ℕ) (m m' : Mesh) → Logged base t.old at m → Enters (was_split i (flat x y)) m m' → Logged base t.new result m' }
{
    if t.len() == 0 {
        return at;
    }
    write_split(&mut t[at..], i, x, y);
    at + SPLIT
}

// The entry of the quad g on the n slots that stand in w from `from` on comes to `at`; where the next one goes.
pub fn note_quad(t: &mut [u32], at: usize, g: Grown, w: &[u32], from: usize, n: usize) -> usize
    requires by_index { (base : List ℕ) × (m : Mesh) × (m' : Mesh) × (q : Quad) × (ids : List ℕ) × Logged base t.old at m × Placing w.now from n g q ids m m' }
    requires words { Words g × (n < 2 ^ 32) }
    ensures { (base : List ℕ) (m m' : Mesh) (q : Quad) (ids : List ℕ) → Logged base t.old at m → Placing w.now from n g q ids m m' → Logged base t.new result m' }
{
    if t.len() == 0 {
        return at;
    }
    write_quad(&mut t[at..], g, n);
    let slots = at + QUAD;
    copy_words(&mut t[slots..], w, from, n);
    slots + n
}
