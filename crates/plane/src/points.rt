// The lent points: three f64 a point, of which x and y are read.
ghost use Rattle.std.specs.Prelude.{◌≡◌};
ghost use Rattle.definition.specs.Call.{point_at};
ghost use Rattle.plane.specs.Points.{Within, node, ground};

// A node without its z.
#[derive(Clone, Copy)]
pub struct Spot {
    pub x: f64,
    pub y: f64,
}

// The spot of node a.
pub fn at(q: &[f64], a: usize) -> Spot
    requires { Within q.now a }
    ensures { node result ≡ ground (point_at q.now a) }
{
    Spot {
        x: q[3 * a],
        y: q[3 * a + 1],
    }
}
