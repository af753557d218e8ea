// The best trials so far, in order, in two lent arrays: the scores, and four nodes for each.
ghost use Rattle.std.specs.Prelude.{◌≡◌, true, ◌*◌, ◌≤◌, ◌<◌, length, take, set};
ghost use Rattle.definition.specs.Cells.{quad_nodes};
ghost use Rattle.definition.specs.Lists.{insert};
ghost use Rattle.definition.specs.Trials.{trial_before, numbers_before};
ghost use Rattle.trials.specs.Kept.{Keeps, Outdone, Place, all, listed, put, quad_of, room, row, trial_of};

use rules::MOST_PAIRS;

// How many the arrays have room for.
pub const ROOM: usize = MOST_PAIRS;

pub const NODES: usize = 4 * ROOM;

// A pair's score and the four nodes of its quad.
#[derive(Clone, Copy)]
pub struct Trial {
    pub score: f64,
    pub n0: usize,
    pub n1: usize,
    pub n2: usize,
    pub n3: usize,
}

// ---- the order

// By the first node in which the two differ.
fn nodes_before(l: Trial, r: Trial) -> bool
    ensures { result ≡ numbers_before (quad_nodes (quad_of l)) (quad_nodes (quad_of r)) }
{
    (l.n0, l.n1, l.n2, l.n3) < (r.n0, r.n1, r.n2, r.n3)
}

// The better score first, then by node numbers.
// Kept (4): scores that do not compare fall to the node numbers, so this is no Ord; `trial_before` says the same.
pub fn before(l: Trial, r: Trial) -> bool
    ensures { result ≡ trial_before (trial_of l) (trial_of r) }
{
    if l.score > r.score {
        return true;
    }
    if l.score < r.score {
        return false;
    }
    nodes_before(l, r)
}

// ---- what is kept

// The trial at i.
fn get(scores: &[f64; ROOM], nodes: &[usize; NODES], i: usize) -> Trial
    requires { i < room }
    ensures { trial_of result ≡ row scores.now nodes.now i }
{
    let at = 4 * i;
    Trial {
        score: scores[i],
        n0: nodes[at],
        n1: nodes[at + 1],
        n2: nodes[at + 2],
        n3: nodes[at + 3],
    }
}

// t in place of the one at i.
fn store(scores: &mut [f64], nodes: &mut [usize], i: usize, t: Trial)
    requires { (i < room) × (room ≤ length scores.old) × (4 * room ≤ length nodes.old) }
    ensures { all scores.new nodes.new ≡ set (all scores.old nodes.old) i (trial_of t) }
{
    let at = 4 * i;
    scores[i] = t.score;
    nodes[at] = t.n0;
    nodes[at + 1] = t.n1;
    nodes[at + 2] = t.n2;
    nodes[at + 3] = t.n3;
}

// Where t goes among the first `count`: before the first that does not come before it.
fn place(scores: &[f64; ROOM], nodes: &[usize; NODES], count: usize, t: Trial) -> usize
    requires { count ≤ room }
    ensures { Place (trial_of t) (listed scores.now nodes.now count) count result }
{
    for p in 0..count {
        if !before(get(scores, nodes, p), t) {
            return p;
        }
    }
    count
}

// t after the first p, the others pushed back, one beyond the pairs dropped; how many are kept then.
fn put(
    scores: &mut [f64; ROOM],
    nodes: &mut [usize; NODES],
    count: usize,
    pairs: usize,
    p: usize,
    t: Trial,
) -> usize
    requires { (p ≤ count) × (count ≤ pairs) × (pairs ≤ room) }
    ensures { Keeps scores.new nodes.new pairs result (take pairs (put p (trial_of t) (listed scores.old nodes.old count))) }
{
    let mut carried = t;
    for i in p..count {
        let next = get(scores, nodes, i);
        store(scores, nodes, i, carried);
        carried = next;
    }
    if count == pairs {
        return count;
    }
    store(scores, nodes, count, carried);
    count + 1
}

// As many trials as are wanted are kept, and x is below the last one's score.
pub fn outdone(scores: &[f64; ROOM], count: usize, pairs: usize, x: f64) -> bool
    requires { (count ≤ pairs) × (pairs ≤ room) }
    ensures { (result ≡ true → Outdone scores.now count pairs x) × (Outdone scores.now count pairs x → result ≡ true) }
{
    if count < pairs {
        return false;
    }
    if count == 0 {
        return false;
    }
    x < scores[count - 1]
}

// t in its place, one beyond the pairs dropped; how many are kept then.
pub fn insert(
    scores: &mut [f64; ROOM],
    nodes: &mut [usize; NODES],
    count: usize,
    pairs: usize,
    t: Trial,
) -> usize
    requires { (count ≤ pairs) × (pairs ≤ room) }
    ensures { Keeps scores.new nodes.new pairs result (take pairs (insert trial_before (trial_of t) (listed scores.old nodes.old count))) }
{
    let p = place(scores, nodes, count, t);
    put(scores, nodes, count, pairs, p, t)
}
