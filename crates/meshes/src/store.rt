// Cells come into slots and go.
ghost use Rattle.std.specs.Prelude.{ℕ, ◌<◌};
ghost use Rattle.definition.specs.Plane.{Edge};
ghost use Rattle.definition.specs.Cells.{Mesh, quad, push_cell, set_cell, remove_cell};
ghost use Rattle.cells.specs.Rep.{Uneven, Rep};
ghost use Rattle.meshes.specs.Changes.{Turns, tri_of_nodes, quad_of_nodes, born_of_nodes, CanPush, CanSet, CanPut, Puts, CanForget, Forgets, Fills, Placed, Anything};

use cells::evens::forget_even;
use cells::layout::{BEFORE, CORNERS, Layout};
use rings::{link, unlink};
use words::wide;

// Nothing is noted of node a any more.
fn forget(w: &mut [u32], lay: Layout, a: usize)
    requires { CanForget w.old lay.slots lay.points a }
    ensures { Forgets w.old w.new lay.slots lay.points a }
{
    w[lay.notes_at() + a] = 0;
}

// Node a comes into place k of slot i, and its corner to the end of the ring of a; what was noted of a is forgotten.
fn place(w: &mut [u32], lay: Layout, i: usize, k: usize, a: usize)
    requires { Fills w.old lay.slots lay.points i k a }
    ensures { Placed w.old w.new lay.slots lay.points i k a }
{
    forget(w, lay, a);
    w[lay.slots + CORNERS * i + k] = a as u32;
    link(
        w,
        BEFORE * lay.slots,
        CORNERS * lay.slots + lay.points,
        CORNERS * i + k,
        CORNERS * lay.slots + a,
    );
}

// The triangle a b c comes into slot i, which holds no cell; nothing is noted of the components.
fn put_tri(w: &mut [u32], lay: Layout, i: usize, a: usize, b: usize, c: usize)
    requires by_index { (m : Mesh) × (n : ℕ) × Rep w.old lay.slots lay.points m × CanPut m lay.slots i n (tri_of_nodes a b c) }
    requires uneven { Uneven w.old lay.slots lay.points }
    ensures { Puts w.old w.new lay.slots lay.points i (tri_of_nodes a b c) }
{
    w[i] = 3;
    place(w, lay, i, 0, a);
    place(w, lay, i, 1, b);
    place(w, lay, i, 2, c);
}

// The quad a b c d comes into slot i, which holds no cell; nothing is noted of the components.
// Kept (2): a quad's clause holds for every birth (e, round and gone), which a triangle has not.
// One function over an array of nodes would take the cell beside it, and its clause would tell the two kinds apart.
fn put_quad(w: &mut [u32], lay: Layout, i: usize, a: usize, b: usize, c: usize, d: usize)
    requires by_index { (m : Mesh) × (n : ℕ) × Rep w.old lay.slots lay.points m × CanPut m lay.slots i n (quad_of_nodes a b c d) }
    requires uneven { Uneven w.old lay.slots lay.points }
    ensures { (e : Edge) (round gone : ℕ) → Puts w.old w.new lay.slots lay.points i (quad (born_of_nodes e round gone a b c d)) }
{
    w[i] = 4;
    place(w, lay, i, 0, a);
    place(w, lay, i, 1, b);
    place(w, lay, i, 2, c);
    place(w, lay, i, 3, d);
}

// The triangle a b c is pushed: it comes into slot i, the next one.
pub fn push_tri(w: &mut [u32], lay: Layout, i: usize, a: usize, b: usize, c: usize)
    requires { (m : Mesh) × Rep w.old lay.slots lay.points m × CanPush m lay.slots i (tri_of_nodes a b c) }
    ensures { Turns w.old w.new lay.slots lay.points (λ m. CanPush m lay.slots i (tri_of_nodes a b c)) (λ m. push_cell m (tri_of_nodes a b c)) }
{
    forget_even(w, lay);
    put_tri(w, lay, i, a, b, c);
}

// The quad a b c d is pushed.
// Kept (2): its clause holds for every birth, as that of `put_quad`.
pub fn push_quad(w: &mut [u32], lay: Layout, i: usize, a: usize, b: usize, c: usize, d: usize)
    requires { (m : Mesh) × Rep w.old lay.slots lay.points m × CanPush m lay.slots i (quad_of_nodes a b c d) }
    ensures { (e : Edge) (round gone : ℕ) → Turns w.old w.new lay.slots lay.points (λ m. CanPush m lay.slots i (quad_of_nodes a b c d)) (λ m. push_cell m (quad (born_of_nodes e round gone a b c d))) }
{
    forget_even(w, lay);
    put_quad(w, lay, i, a, b, c, d);
}

// The cell in slot i goes, if there is one, and what was noted of its nodes; nothing is noted of the components.
fn take_out(w: &mut [u32], lay: Layout, i: usize)
    requires rep { (m : Mesh) × Rep w.old lay.slots lay.points m }
    requires i_lt_s { i < lay.slots }
    requires uneven { Uneven w.old lay.slots lay.points }
    ensures { Turns w.old w.new lay.slots lay.points Anything (λ m. remove_cell m i) }
{
    let n = wide(w[i]);
    for k in 0..n {
        let a = wide(w[lay.slots + CORNERS * i + k]);
        forget(w, lay, a);
        unlink(
            w,
            BEFORE * lay.slots,
            CORNERS * lay.slots + lay.points,
            CORNERS * i + k,
        );
    }
    w[i] = 0;
}

// The cell in slot i goes, if there is one, and what was noted of its nodes and of the
// components; the slot is not used again.
pub fn remove_cell(w: &mut [u32], lay: Layout, i: usize)
    requires rep { (m : Mesh) × Rep w.old lay.slots lay.points m }
    requires i_lt_s { i < lay.slots }
    ensures { Turns w.old w.new lay.slots lay.points Anything (λ m. remove_cell m i) }
{
    forget_even(w, lay);
    take_out(w, lay, i);
}

// The triangle a b c replaces the cell in slot i.
pub fn set_tri(w: &mut [u32], lay: Layout, i: usize, a: usize, b: usize, c: usize)
    requires { (m : Mesh) × Rep w.old lay.slots lay.points m × CanSet m i (tri_of_nodes a b c) }
    ensures { Turns w.old w.new lay.slots lay.points (λ m. CanSet m i (tri_of_nodes a b c)) (λ m. set_cell m i (tri_of_nodes a b c)) }
{
    remove_cell(w, lay, i);
    forget_even(w, lay);
    put_tri(w, lay, i, a, b, c);
}
