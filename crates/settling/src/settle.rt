// What an attempt leaves behind: the quad behind the others, or the edge among the blocked ones.
ghost use Rattle.std.specs.Prelude.{◌≡◌, List, ◌++◌, ℕ, ◌≤◌, length, drop};
ghost use Rattle.definition.specs.Plane.{Edge};
ghost use Rattle.definition.specs.Cells.{Quad};
ghost use Rattle.settling.specs.Settles.{eight, Words, CanPut, PutTo, CanRecord, RecordTo, CanSettle, SettleTo};

use crate::standing::{Going, Standing, Step};
use blocked_edges::{block, free};
use cells::layout::{Layout, RECORDS};
use outcomes::{End, Placed, Tried};

// Words a quad.
pub const QUAD: usize = 8;

// The quad z of an attempt on the edge u-v, with its birth: eight numbers at the front of a part of the quad slice.
fn write_quad(quads: &mut [u32], z: Placed, u: usize, v: usize, round: usize)
    requires in_bounds { 8 ≤ length quads.old }
    requires words { Words z u v round }
    ensures { quads.new ≡ eight z u v round ++ drop 8 quads.old }
{
    quads[0] = z.n0 as u32;
    quads[1] = z.n1 as u32;
    quads[2] = z.n2 as u32;
    quads[3] = z.n3 as u32;
    quads[4] = u as u32;
    quads[5] = v as u32;
    quads[6] = round as u32;
    quads[7] = z.replaced as u32;
}

// The quad z of an attempt on the edge u-v stands behind the others, and frees the blocked edges that touch it.
// Every round before placed one quad.
fn put_quad(
    w: &mut [u32],
    quads: &mut [u32],
    lay: Layout,
    g: Standing,
    z: Placed,
    u: usize,
    v: usize,
) -> Step
    requires { (ever : List Edge) × (bl : List Edge) × (qs : List Quad) × (old : List ℕ) × CanPut w.old quads.old lay.slots lay.points g z u v ever bl qs old }
    ensures { (ever bl : List Edge) (qs : List Quad) (old : List ℕ) → CanPut w.old quads.old lay.slots lay.points g z u v ever bl qs old → PutTo w.old w.new quads.new lay.slots lay.points g z ever bl qs old result }
{
    let k = g.quads;
    let at = QUAD * k;
    write_quad(&mut quads[at..], z, u, v, k + 1);
    let b = lay.refused_at();
    free(
        w,
        b,
        RECORDS * lay.slots,
        lay.points,
        k,
        z.n0,
        z.n1,
        z.n2,
        z.n3,
    );
    Step {
        kind: Going::Progressed,
        standing: g.quadded(),
    }
}

// The edge u-v is blocked; h counted the refusal.
fn put_record(w: &mut [u32], lay: Layout, h: Standing, u: usize, v: usize) -> Step
    requires { (ever : List Edge) × (bl : List Edge) × CanRecord w.old lay.slots lay.points h u v ever bl }
    ensures { (ever bl : List Edge) → CanRecord w.old lay.slots lay.points h u v ever bl → RecordTo w.old w.new lay.slots lay.points h u v ever bl result }
{
    let b = lay.refused_at();
    let n = block(
        w,
        b,
        RECORDS * lay.slots,
        lay.points,
        h.records,
        h.quads,
        u,
        v,
    );
    Step {
        kind: Going::Stuck,
        standing: h.recorded(n),
    }
}

// What the attempt t on the edge u-v leaves.
pub fn settle(
    w: &mut [u32],
    quads: &mut [u32],
    lay: Layout,
    g: Standing,
    t: Tried,
    u: usize,
    v: usize,
) -> Step
    requires { (ever : List Edge) × (bl : List Edge) × (qs : List Quad) × (old : List ℕ) × CanSettle w.old quads.old lay.slots lay.points g t u v ever bl qs old }
    ensures { (ever bl : List Edge) (qs : List Quad) (old : List ℕ) → CanSettle w.old quads.old lay.slots lay.points g t u v ever bl qs old → SettleTo w.old w.new quads.new lay.slots lay.points g t u v ever bl qs old result }
{
    let h = g.tried(t.counters, t.at, t.inserted, t.trials);
    match t.end {
        End::Placed(z) => put_quad(w, quads, lay, h, z, u, v),
        End::Refused(kind) => put_record(w, lay, h.refused(kind), u, v),
        End::Short(short) => Step {
            kind: Going::Short(short),
            standing: h,
        },
    }
}
