// The nodes of lent cells, as spots.
ghost use Rattle.std.specs.Prelude.{◌+◌, ◌*◌, get_or};
ghost use Rattle.definition.specs.Call.{tri_at};
ghost use Rattle.accept.specs.Call.{corners_at};
ghost use Rattle.offenders.specs.Cells.{Names, NamesFour, StandsFor, StandFor};
ghost use Rattle.offenders.specs.Triangles.{NamesThree, ThreeFor};

use plane::points::{Spot, at};
use words::wide;

// The spot of the node that word k names.
pub fn spot_of(points: &[f64], cells: &[u32], k: usize) -> Spot
    requires { Names points.now cells.now k }
    ensures { StandsFor points.now (get_or cells.now k 0) result }
{
    at(points, wide(cells[k]))
}

// A quad's nodes.
#[derive(Clone, Copy)]
pub struct Four {
    pub n0: Spot,
    pub n1: Spot,
    pub n2: Spot,
    pub n3: Spot,
}

// The nodes of quad i.
pub fn four_of(points: &[f64], quads: &[u32], i: usize) -> Four
    requires { NamesFour points.now quads.now i }
    ensures { StandFor points.now (corners_at quads.now i) result }
{
    let n0 = spot_of(points, quads, 4 * i);
    let n1 = spot_of(points, quads, 4 * i + 1);
    let n2 = spot_of(points, quads, 4 * i + 2);
    let n3 = spot_of(points, quads, 4 * i + 3);
    Four { n0, n1, n2, n3 }
}

// A triangle's nodes.
#[derive(Clone, Copy)]
pub struct Three {
    pub n0: Spot,
    pub n1: Spot,
    pub n2: Spot,
}

// The nodes of triangle i.
pub fn three_of(points: &[f64], triangles: &[u32], i: usize) -> Three
    requires { NamesThree points.now triangles.now i }
    ensures { ThreeFor points.now (tri_at triangles.now i) result }
{
    let n0 = spot_of(points, triangles, 3 * i);
    let n1 = spot_of(points, triangles, 3 * i + 1);
    let n2 = spot_of(points, triangles, 3 * i + 2);
    Three { n0, n1, n2 }
}
