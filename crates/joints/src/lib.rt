// Joints, the locked edges: a table that is made once and read by every flip and every region.
#![tactic(auto)]

ghost use Rattle.std.specs.Prelude.{◌≡◌, Bool, List, ◌+◌, ◌*◌, ◌≤◌, ◌<◌, length};
ghost use Rattle.definition.specs.Lists.{table, below};
ghost use Rattle.definition.specs.Plane.{Edge};
ghost use Rattle.definition.specs.Cells.{key, same_edge, has_edge_in};
ghost use Rattle.definition.specs.Call.{joint_at};
ghost use Rattle.joints.specs.Table.{edge_in, Kept, Locks};
ghost use Rattle.joints.specs.Put.{Put};

use words::wide;

// Marks; they stand first.
const MARKS: usize = 1024;

// Where the number of joints stands.
const COUNT: usize = 1024;

// Where the joints begin, two words each.
const PAIRS: usize = 1025;

// Words of the table: at most 256 joints fit.
pub const TABLE: usize = 1537;

// ---- the test

// Joint i is u-v.
fn is_joint(j: &[u32], i: usize, u: usize, v: usize) -> bool
    requires { 1027 + 2 * i ≤ length j.now }
    ensures { result ≡ same_edge (u, v) (edge_in j.now i) }
{
    let at = PAIRS + 2 * i;
    if wide(j[at]) == u {
        return wide(j[at + 1]) == v;
    }
    false
}

// Some joint is u-v.
fn listed(j: &[u32], u: usize, v: usize) -> bool
    requires { (es : List Edge) × Kept j.now es }
    ensures { (es : List Edge) → Kept j.now es → result ≡ has_edge_in es (u, v) }
{
    let n = wide(j[COUNT]);
    for i in 0..n {
        if is_joint(j, i, u, v) {
            return true;
        }
    }
    false
}

// The edge u-v, its smaller node first, is locked. Where a node has no mark, it is in no joint.
pub fn locked(j: &[u32], u: usize, v: usize) -> bool
    requires { (k : Edge → Bool) × Locks j.now k }
    ensures { (k : Edge → Bool) → Locks j.now k → result ≡ k (u, v) }
{
    if j[u % MARKS] == 0 {
        return false;
    }
    if j[v % MARKS] == 0 {
        return false;
    }
    listed(j, u, v)
}

// The edge between a and b is locked.
pub fn locked_between(j: &[u32], a: usize, b: usize) -> bool
    requires { (k : Edge → Bool) × Locks j.now k }
    ensures { (k : Edge → Bool) → Locks j.now k → result ≡ k (key a b) }
{
    if a < b {
        return locked(j, a, b);
    }
    locked(j, b, a)
}

// ---- the table

// Joint i is u-v, the smaller node first.
fn put_edge(j: &mut [u32], i: usize, u: u32, v: u32)
    requires { 1027 + 2 * i ≤ length j.old }
    ensures { Put j.old j.new i (u, v) }
{
    let at = PAIRS + 2 * i;
    j[at] = u;
    j[at + 1] = v;
    j[wide(u) % MARKS] = 1;
    j[wide(v) % MARKS] = 1;
}

// Joint i is the edge between a and b.
fn put_joint(j: &mut [u32], i: usize, a: u32, b: u32)
    requires { 1027 + 2 * i ≤ length j.old }
    ensures { Put j.old j.new i (key a b) }
{
    if a < b {
        put_edge(j, i, a, b);
        return;
    }
    put_edge(j, i, b, a);
}

// Kept (6): C's callers lend a slice that may be longer than the joints stated.
// The table of the first n pairs of a slice.
pub fn put_joints(j: &mut [u32], joints: &[u32], n: usize)
    requires in_bounds { 1537 ≤ length j.old }
    requires n_bound { n ≤ 256 }
    requires n_in_bounds { 2 * n ≤ length joints.now }
    ensures { Kept j.new (table (joint_at joints.now) (below n)) }
{
    j[COUNT] = n as u32;
    for i in 0..n {
        put_joint(j, i, joints[2 * i], joints[2 * i + 1]);
    }
}
