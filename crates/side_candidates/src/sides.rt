// Side candidates: nodes of the region in hand that lie ahead.
ghost use Rattle.std.specs.Prelude.{◌≡◌, true, List};
ghost use Rattle.definition.specs.Lists.{filter, any};
ghost use Rattle.definition.specs.Cells.{Live, Mesh, has_node};
ghost use Rattle.definition.specs.Candidates.{ahead};
ghost use Rattle.plane.specs.Vectors.{vec};
ghost use Rattle.rules.specs.Settings.{quality_of};
ghost use Rattle.side_candidates.specs.Hand.{fenced, Ends, in_view};
ghost use Rattle.side_candidates.specs.Blocks.{Fence};

use crate::blocks::Blocks;
use crate::inside::segment_inside_boxed;
use cells::layout::Layout;
use plane::floats::abs;
use plane::vectors::{Vec, dot, norm};
use rules::Quality;

// A side node: its way along the normal in targets, its way across in ways along.
pub const SIDE_ALONG: f64 = 0.25;

pub const SIDE_ACROSS: f64 = 2.5;

// d goes far enough along n and, measured by that, not too far across,
// and has a length between the side factors; its root is taken last.
pub fn ahead(y: Quality, n: Vec, d: Vec, target: f64) -> bool
    ensures { result ≡ ahead (quality_of y) (vec n) (vec d) target }
{
    let along = dot(d, n);
    if along < SIDE_ALONG * target {
        return false;
    }
    if abs(d.dx * n.dy - d.dy * n.dx) > SIDE_ACROSS * along {
        return false;
    }
    let far = norm(d);
    if far < y.side_low * target {
        return false;
    }
    !(far > y.side_high * target)
}

// The node v of the region, of which the triangles with a wall are in hand, in blocks with boxes,
// is another than the two ends, and the segment from a stays inside.
pub fn in_view_boxed(
    w: &[u32],
    q: &[f64],
    lay: Layout,
    k: usize,
    h: Blocks,
    a: usize,
    other: usize,
    v: usize,
) -> bool
    requires { (m : Mesh) × (region : List Live) × Fence w.now q.now lay.slots lay.points k h.boxes.now h.size m (filter (fenced m) region) × Ends m a v }
    ensures { (m : Mesh) (region : List Live) → Fence w.now q.now lay.slots lay.points k h.entry.boxes.now h.entry.size m (filter (fenced m) region) → Ends m a v → any (has_node v) region ≡ true → result ≡ in_view m a other region v }
{
    if v == a {
        return false;
    }
    if v == other {
        return false;
    }
    segment_inside_boxed(w, q, lay, k, h, a, v)
}
