// The stack of a live region as a ring of slots, with a mark for each slot and the list of the cells in reach.
ghost use Rattle.std.specs.Prelude.{◌≡◌, true, List, [], ◌∷◌, ◌++◌, ℕ, ◌+◌, ◌*◌, ◌<◌, ◌≤◌, eqb, length, get_or};
ghost use Rattle.definition.specs.Cells.{Live, Mesh, tri, new_live, key};
ghost use Rattle.definition.specs.Candidates.{on_top};
ghost use Rattle.cells.specs.Rep.{Rep, Room, TriIn};
ghost use Rattle.cells.specs.Layout.{Sizes, all_end};
ghost use Rattle.cells.specs.Walk.{IsEdge};
ghost use Rattle.live_regions.specs.Stack.{Hold, Met, PushTo, CanPush, CanPass, CanNote, Pair, Adds, EdgeTo, CanPushAll, AroundTo, OnTop, TakeTo, CanList, CanClear, Unmarked, top_of};
ghost use Rattle.live_regions.specs.Walls.{counted, tally_with, number_of};

use cells::clear::clear_range;
use cells::find::{first_owner, next_owner, node};
use cells::layout::{BEFORE, CORNERS, Layout};
use rings::{link, next, unlink};
use words::wide;

// A node where more corners meet than this has a long ring.
const LONG: usize = 64;

// The marks of the first n slots are cleared.
fn clear_marks(w: &mut [u32], lay: Layout, n: usize)
    requires { CanClear w.old lay.slots lay.points n }
    ensures { Unmarked w.old w.new lay.slots lay.points n }
{
    clear_range(w, lay.marks_at(), n);
}

// Nothing is listed, marked or on the stack.
pub fn empty(w: &mut [u32], lay: Layout, n: usize)
    requires rep { (m : Mesh) × Rep w.old lay.slots lay.points m × (n ≡ m.used) }
    requires p_in_bounds { all_end lay.slots lay.points ≤ length w.old }
    ensures { (m : Mesh) → Rep w.old lay.slots lay.points m → n ≡ m.used → PushTo w.old w.new lay.slots lay.points m [] [] [] }
{
    clear_marks(w, lay, n);
    let stack = lay.stack_at();
    w[stack + lay.slots] = lay.slots as u32;
    w[stack + (lay.slots + 1) + lay.slots] = lay.slots as u32;
}

// The cell in slot j comes to the top of the stack, unless it was seen or is no triangle; one that is on the stack moves there.
pub fn push_one(w: &mut [u32], lay: Layout, j: usize)
    requires { (m : Mesh) × (out : List Live) × (seen : List Live) × (st : List Live) × (e : Live) × Met w.old lay.slots lay.points j m out seen st e }
    ensures { (m : Mesh) (out seen st : List Live) (e : Live) → Met w.old lay.slots lay.points j m out seen st e → PushTo w.old w.new lay.slots lay.points m out seen (on_top seen st e) }
{
    let marks = lay.marks_at();
    let stack = lay.stack_at();
    let m = w[marks + j];
    if m >= 16 {
        unlink(w, stack, lay.slots + 1, j);
        link(w, stack, lay.slots + 1, j, lay.slots);
        return;
    }
    if m >= 2 {
        return;
    }
    if w[j] != 3 {
        return;
    }
    w[marks + j] = 16;
    link(w, stack, lay.slots + 1, j, lay.slots);
}

// What the owners of an edge are, as far as they were met: so many triangles and nothing else, or anything else.
#[derive(Clone, Copy)]
enum Tally {
    None,
    One,
    Two,
    Other,
}

// The tally k with one owner more, in slot j.
fn tallied(w: &[u32], j: usize, k: Tally) -> Tally
    requires { j < length w.now }
    ensures { number_of result ≡ tally_with (eqb (get_or w.now j 0) 3) (number_of k) }
{
    if w[j] != 3 {
        return Tally::Other;
    }
    match k {
        Tally::None => Tally::One,
        Tally::One => Tally::Two,
        Tally::Two | Tally::Other => Tally::Other,
    }
}

// The nodes a and b are u and v, in either order.
fn joins(a: usize, b: usize, u: usize, v: usize) -> bool
    ensures { result ≡ true → key a b ≡ key u v }
{
    (a == u && b == v) || (a == v && b == u)
}

// The mark n of a triangle on the stack, of nodes x, y, z, with the bit of its edge u-v.
fn with_edge(n: u32, x: usize, y: usize, z: usize, u: usize, v: usize) -> u32
    ensures lower_bound { n ≤ result }
    ensures adds { Adds n result x y z u v }
{
    if n % 2 == 0 && joins(x, y, u, v) {
        return n + 1;
    }
    if n / 2 % 2 == 0 && joins(y, z, u, v) {
        return n + 2;
    }
    if n / 4 % 2 == 0 && joins(z, x, u, v) {
        return n + 4;
    }
    n
}

// The triangle in slot j, if it is on the stack, need not push the owners of its edge u-v.
fn note_edge(w: &mut [u32], lay: Layout, j: usize, u: usize, v: usize)
    requires can_note { (m : Mesh) × (out : List Live) × (seen : List Live) × (st : List Live) × CanNote w.old lay.slots lay.points j u v m out seen st }
    requires j_lt_s { j < lay.slots }
    ensures { (m : Mesh) (out seen st : List Live) → CanNote w.old lay.slots lay.points j u v m out seen st → PushTo w.old w.new lay.slots lay.points m out seen st }
{
    let marks = lay.marks_at();
    let n = w[marks + j];
    if n < 16 {
        return;
    }
    let x = node(w, lay.slots, j, 0);
    let y = node(w, lay.slots, j, 1);
    let z = node(w, lay.slots, j, 2);
    w[marks + j] = with_edge(n, x, y, z, u, v);
}

// Of two triangles a and b, which own u-v, the one that is not i need not push the owners.
fn note_other(w: &mut [u32], lay: Layout, i: usize, a: usize, b: usize, u: usize, v: usize)
    requires { (m : Mesh) × (out : List Live) × (seen : List Live) × (st : List Live) × Pair w.old lay.slots lay.points i a b u v m out seen st }
    ensures { (m : Mesh) (out seen st : List Live) → Pair w.old lay.slots lay.points i a b u v m out seen st → PushTo w.old w.new lay.slots lay.points m out seen st }
{
    if b == i {
        note_edge(w, lay, a, u, v);
        return;
    }
    note_edge(w, lay, b, u, v);
}

// The owners of u-v, one of which is in slot i, are pushed; whether they are two triangles. The other need not push them then.
fn push_edge(w: &mut [u32], lay: Layout, i: usize, u: usize, v: usize) -> bool
    requires can_push { (m : Mesh) × (out : List Live) × (seen : List Live) × (st : List Live) × CanPush w.old lay.slots lay.points i u v m out seen st }
    requires edge { IsEdge lay.points u v }
    ensures { (m : Mesh) (out seen st : List Live) → CanPush w.old lay.slots lay.points i u v m out seen st → EdgeTo w.old w.new lay.slots lay.points u v result m out seen st }
{
    let first = first_owner(w, lay, u, v);
    let mut k = Tally::None;
    let mut j = i;
    let mut c = first;
    while c < 4 * lay.slots {
        j = c / 4;
        k = tallied(w, j, k);
        push_one(w, lay, j);
        c = next_owner(w, lay, u, v, c);
    }
    let Tally::Two = k else {
        return false;
    };
    note_other(w, lay, i, first / 4, j, u, v);
    true
}

// More corners than LONG meet at u.
fn is_long(w: &[u32], lay: Layout, u: usize) -> bool
    requires room { Room w.now lay.slots lay.points }
    requires u_lt_p { u < lay.points }
{
    let mut c = next(
        w,
        BEFORE * lay.slots,
        CORNERS * lay.slots + lay.points,
        CORNERS * lay.slots + u,
    );
    for _ in 0..LONG {
        if c >= CORNERS * lay.slots {
            return false;
        }
        c = next(w, BEFORE * lay.slots, CORNERS * lay.slots + lay.points, c);
    }
    true
}

// The owners of u-v are better sought around v: it is a node, and u has a long ring.
fn around_other(w: &[u32], lay: Layout, u: usize, v: usize) -> bool
    requires room { Room w.now lay.slots lay.points }
    requires u_lt_p { u < lay.points }
    ensures { result ≡ true → v < lay.points }
{
    v < lay.points && is_long(w, lay, u)
}

// Like `push_edge`, around the better end, which is looked for where `many` triangles are in reach.
// Kept (7): both branches call `push_edge`, with the ends in either order; a closure for that is longer than the test.
fn push_either(w: &mut [u32], lay: Layout, i: usize, u: usize, v: usize, many: bool) -> bool
    requires can_push { (m : Mesh) × (out : List Live) × (seen : List Live) × (st : List Live) × CanPush w.old lay.slots lay.points i u v m out seen st }
    requires edge { IsEdge lay.points u v }
    ensures { (m : Mesh) (out seen st : List Live) → CanPush w.old lay.slots lay.points i u v m out seen st → EdgeTo w.old w.new lay.slots lay.points u v result m out seen st }
{
    if many && around_other(w, lay, u, v) {
        return push_edge(w, lay, i, v, u);
    }
    push_edge(w, lay, i, u, v)
}

// Like `push_either`; does nothing where bit b says that the owners of the edge were pushed.
fn push_new(w: &mut [u32], lay: Layout, i: usize, u: usize, v: usize, b: u32, many: bool) -> bool
    requires can_pass { (m : Mesh) × (out : List Live) × (seen : List Live) × (st : List Live) × CanPass w.old lay.slots lay.points i u v b m out seen st }
    requires edge { IsEdge lay.points u v }
    ensures { (m : Mesh) (out seen st : List Live) → CanPass w.old lay.slots lay.points i u v b m out seen st → EdgeTo w.old w.new lay.slots lay.points u v result m out seen st }
{
    if b == 1 {
        return true;
    }
    push_either(w, lay, i, u, v, many)
}

// What an edge adds to the mark of its triangle: k where it is a wall.
// Kept (7): `shared` picks one of two numbers, and no step to run.
fn counted(shared: bool, k: u32) -> u32
    ensures { result ≡ counted shared k }
{
    if shared { 0 } else { k }
}

// The owners of the edges of the triangle x in slot i are pushed, edge after edge, unless its mark n told that they were; the mark that tells its walls.
// The owners of an edge are sought around its better end, which is looked for where `many` triangles are in reach.
// Kept (7): a closure that finds the end would be lent w and the layout at each edge; `many` is one test in one place.
pub fn push_around(w: &mut [u32], lay: Layout, i: usize, n: u32, many: bool) -> u32
    requires can_push_all { (m : Mesh) × (out : List Live) × (seen : List Live) × (st : List Live) × (t : TriIn m i) × CanPushAll w.old lay.slots lay.points i n m out seen st t.t }
    requires i_lt_s { i < lay.slots }
    ensures { (m : Mesh) (out seen st : List Live) (x : Live) (t : TriIn m i) → CanPushAll w.old lay.slots lay.points i n m out seen st t.t → x ≡ new_live i (tri t.t) → AroundTo w.old w.new lay.slots lay.points result m out seen st x }
{
    let x = node(w, lay.slots, i, 0);
    let y = node(w, lay.slots, i, 1);
    let z = node(w, lay.slots, i, 2);
    let a = counted(push_new(w, lay, i, x, y, n % 2, many), 1);
    let b = counted(push_new(w, lay, i, y, z, n / 2 % 2, many), 2);
    let c = counted(push_new(w, lay, i, z, x, n / 4 % 2, many), 4);
    8 + a + b + c
}

// The slot on top of the stack, if it has one.
pub fn top(w: &[u32], lay: Layout) -> Option<usize>
    requires p_in_bounds { all_end lay.slots lay.points ≤ length w.now }
    requires sizes { Sizes lay.slots lay.points }
    ensures { (m : Mesh) (out seen st : List Live) → Hold w.now lay.slots lay.points m out seen st → result ≡ top_of st }
{
    let i = wide(w[lay.stack_at() + (lay.slots + 1) + lay.slots]);
    if i < lay.slots { Some(i) } else { None }
}

// The slot i on top of the stack is taken: it is seen now. The mark that it had.
pub fn take(w: &mut [u32], lay: Layout, i: usize) -> u32
    requires { (m : Mesh) × (out : List Live) × (seen : List Live) × (st : List Live) × (x : Live) × OnTop w.old lay.slots lay.points i m out seen st x }
    ensures { (m : Mesh) (out seen st : List Live) (x : Live) → OnTop w.old lay.slots lay.points i m out seen st x → TakeTo w.old w.new lay.slots lay.points i result m out seen st x }
{
    let marks = lay.marks_at();
    let stack = lay.stack_at();
    let n = w[marks + i];
    unlink(w, stack, lay.slots + 1, i);
    w[marks + i] = 2;
    n
}

// The slot i comes to the end of the list of n, with the mark f.
pub fn list_one(w: &mut [u32], lay: Layout, n: usize, i: usize, f: u32)
    requires { (m : Mesh) × (out : List Live) × (seen : List Live) × (st : List Live) × (x : Live) × CanList w.old lay.slots lay.points n i f m out seen st x }
    ensures { (m : Mesh) (out seen st : List Live) (x : Live) → CanList w.old lay.slots lay.points n i f m out seen st x → PushTo w.old w.new lay.slots lay.points m (out ++ x ∷ []) seen st }
{
    let list = lay.list_at();
    let marks = lay.marks_at();
    w[list + n] = i as u32;
    w[marks + i] = f;
}
