// What a front edge would give: one attempt on the starting mesh, which is then undone.
#![tactic(auto)]

ghost use Rattle.std.specs.Prelude.{◌≡◌, [], ◌+◌, ◌≤◌, ◌<◌, length, Ok};
ghost use Rattle.definition.specs.Counts.{nothing_spent};
ghost use Rattle.definition.specs.Cells.{key};
ghost use Rattle.definition.specs.Call.{Lent, settings};
ghost use Rattle.definition.specs.Attempt.{try_quad};
ghost use Rattle.definition.specs.Preview.{off_front, cost, preview, shown, show_edge};
ghost use Rattle.cells.specs.declared.counters.Counters.{Counters};
ghost use Rattle.outcomes.specs.Ends.{AttemptTo};
ghost use Rattle.refusals.specs.Stated.{asked};
ghost use Rattle.mesher.specs.Promise.{lent_of};
ghost use Rattle.mesher.specs.Previews.{shown_of, Previews};
ghost use Rattle.mesher.specs.Parts.{sized};
ghost use Rattle.mesher.specs.Showing.{shown_by, Holds, Back, first_of, usual_rules, CanShow, CanTry};

use allowances::{ATTEMPTS_EACH, ATTEMPTS_MORE};
use cells::clear::clear;
use cells::counters::Counters;
use cells::find::is_front;
use cells::layout::Layout;
use joints::{TABLE, put_joints};
use mesher::preview::{Born, Cost, Shown};
use mesher::setup::rules_of;
use meshes::build::build;
use outcomes::{End, Tried};
use refusals::{Refusal, Room, Stated, refusal};
use traces::Log;
use try_quad::tried::try_quad;

// What stands from `from` on is kept, as far as the slice reaches.
fn keep(points: &[f64], kept: &mut [f64], from: usize)
    requires { (from ≤ 12288) × (6 ≤ length kept.old) }
    ensures { Holds points.now kept.new from 6 }
{
    for i in 0..6 {
        if from + i >= points.len() {
            return;
        }
        kept[i] = points[from + i];
    }
}

// The first n kept numbers are put back from `from` on.
fn put_back(points: &mut [f64], kept: &[f64], from: usize, n: usize)
    requires { (n ≤ length kept.now) × (from + n ≤ length points.old) × (from ≤ 12288) × (n ≤ 6) }
    ensures { Back points.old points.new kept.now from n }
{
    for i in 0..n {
        points[from + i] = kept[i];
    }
}

// Kept (4): no struct is copied, for a quad gains its edge and its round here.
// What an attempt on the edge u-v shows, by its end.
fn shown_by(t: Tried, u: usize, v: usize) -> Result<Shown, Refusal>
    ensures { result ≡ shown_by t.end t u v }
{
    let cost = Cost {
        insertions: t.inserted,
        flips: t.flips,
    };
    match t.end {
        End::Placed(z) => Ok(Shown::Quad(
            Born {
                n0: z.n0,
                n1: z.n1,
                n2: z.n2,
                n3: z.n3,
                u,
                v,
                round: 1,
                replaced: z.replaced,
            },
            cost,
        )),
        End::Refused(kind) => Ok(Shown::Refused(kind, cost)),
        End::Short(s) => Err(s.into()),
    }
}

// The attempt on the edge u-v of the mesh that was built, with no trace.
fn attempted(
    points: &mut [f64],
    joints: &[u32],
    work: &mut [u32],
    stated: Stated,
    u: usize,
    v: usize,
) -> Tried
    requires { (l : Lent) × CanTry points.old joints.now work.old (asked stated) l u v }
    ensures { (l : Lent) (k : CanTry points.old joints.now work.old (asked stated) l u v) → ((c : Counters) × AttemptTo work.new points.old points.new (usual_rules (asked stated) (sized (asked stated) l k.passed)) c (try_quad (settings (asked stated)) (first_of (asked stated) l) (u, v)) result) }
{
    let usual = ATTEMPTS_EACH * stated.count + ATTEMPTS_MORE;
    let lay = Layout {
        slots: stated.slots,
        points: stated.capacity,
    };
    let rules = rules_of(stated, lay, usual, 0);
    let counters = Counters::new(stated.count, stated.given);
    let mut table = [0u32; TABLE];
    put_joints(&mut table, joints, stated.joints);
    let mut none = [0u32; 0];
    let log = Log { at: 0, round: 1 };
    try_quad(work, points, &table, &mut none, rules, counters, log, u, v)
}

// What the attempt on the edge u-v of the mesh that was built shows; the points are put back as they were.
fn try_on(
    points: &mut [f64],
    joints: &[u32],
    work: &mut [u32],
    stated: Stated,
    u: usize,
    v: usize,
) -> Result<Shown, Refusal>
    requires { (l : Lent) × CanTry points.old joints.now work.old (asked stated) l u v }
    ensures { (l : Lent) → CanTry points.old joints.now work.old (asked stated) l u v → (points.new ≡ points.old) × (shown_of result ≡ shown (try_quad (settings (asked stated)) (first_of (asked stated) l) (u, v))) }
{
    let from = 3 * stated.given;
    let mut kept = [0.0; 6];
    keep(points, &mut kept, from);
    let t = attempted(points, joints, work, stated, u, v);
    let c = t.counters;
    let added = c.points - stated.given;
    let n = 3 * added;
    put_back(points, &kept, from, n);
    shown_by(t, u, v)
}

// Not on the front: nothing is inserted and nothing flipped.
fn off_front() -> Shown
    ensures { shown_of (Ok result) ≡ off_front (cost nothing_spent) }
{
    let free = Cost {
        insertions: 0,
        flips: 0,
    };
    Shown::OffFront(free)
}

// What the edge u-v shows, the smaller node first.
fn show_sorted(
    points: &mut [f64],
    triangles: &[u32],
    joints: &[u32],
    work: &mut [u32],
    stated: Stated,
    u: usize,
    v: usize,
) -> Result<Shown, Refusal>
    requires can_show { (l : Lent) × CanShow points.old triangles.now joints.now work.old (asked stated) l }
    requires u_lt_v { u < v }
    ensures { (l : Lent) → CanShow points.old triangles.now joints.now work.old (asked stated) l → (points.new ≡ points.old) × (shown_of result ≡ show_edge (settings (asked stated)) (first_of (asked stated) l) (u, v)) }
{
    if v >= stated.given {
        return Ok(off_front());
    }
    let lay = Layout {
        slots: stated.slots,
        points: stated.capacity,
    };
    build(work, triangles, lay, stated.count, stated.given);
    if is_front(work, lay, u, v) {
        return try_on(points, joints, work, stated, u, v);
    }
    Ok(off_front())
}

// What the edge between u and v shows.
fn show_edge(
    points: &mut [f64],
    triangles: &[u32],
    joints: &[u32],
    work: &mut [u32],
    stated: Stated,
    u: usize,
    v: usize,
) -> Result<Shown, Refusal>
    requires { (l : Lent) × CanShow points.old triangles.now joints.now work.old (asked stated) l }
    ensures { (l : Lent) → CanShow points.old triangles.now joints.now work.old (asked stated) l → (points.new ≡ points.old) × (shown_of result ≡ show_edge (settings (asked stated)) (first_of (asked stated) l) (key u v)) }
{
    if u < v {
        return show_sorted(points, triangles, joints, work, stated, u, v);
    }
    if v < u {
        return show_sorted(points, triangles, joints, work, stated, v, u);
    }
    Ok(off_front())
}

// What the edge between u and v would give, in either order of the two and whatever they are.
// No precondition.
// Both work slices are zero then and every other slice is as it was; a refusal before the attempt touches nothing.
pub fn preview(
    points: &mut [f64],
    triangles: &[u32],
    joints: &[u32],
    quads: &[u32],
    triangles_out: &[u32],
    components: &[u32],
    work: &mut [u32],
    float_work: &mut [f64],
    stated: Stated,
    u: usize,
    v: usize,
) -> Result<Shown, Refusal>
    ensures { Previews
        (preview
        (asked stated)
        (lent_of points.old triangles.now joints.now quads.now triangles_out.now components.now work.old float_work.old [])
        u v)
        result
        (lent_of points.new triangles.now joints.now quads.now triangles_out.now components.now work.new float_work.new []) }
{
    let room = Room {
        quads: quads.len(),
        out: triangles_out.len(),
        components: components.len(),
        work: work.len(),
        floats: float_work.len(),
    };
    refusal(points, triangles, joints, stated, room)?;
    let r = show_edge(points, triangles, joints, work, stated, u, v);
    clear(work, 0);
    clear(float_work, 0.0);
    r
}
