// Where the points lie.
ghost use Rattle.std.specs.Prelude.{◌≡◌};
ghost use Rattle.acceptance.specs.Positions.{coordinates, placed};

// x and y of five points to a position; three and four points are the first of them.
const POSITIONS: [[f64; 10]; 8] = [
    // a square and its centre
    [0.0, 0.0, 1.0, 0.0, 1.0, 1.0, 0.0, 1.0, 0.5, 0.5],
    // the square in another order, and a point off its centre
    [0.0, 0.0, 1.0, 0.0, 0.0, 1.0, 1.0, 1.0, 0.5, 0.25],
    // a pentagon
    [
        1.0, 0.0, 0.3125, 0.9375, -0.8125, 0.5625, -0.8125, -0.5625, 0.3125, -0.9375,
    ],
    // a strip
    [0.0, 0.0, 0.5, 0.875, 1.0, 0.0, 1.5, 0.875, 2.0, 0.0],
    // a trapezoid, with a point on its longer side
    [0.0, 0.0, 2.0, 0.0, 1.5, 1.0, 0.5, 1.0, 1.0, 0.0],
    // two points alike
    [0.0, 0.0, 1.0, 0.0, 1.0, 1.0, 1.0, 1.0, 0.0, 1.0],
    // on a line
    [0.0, 0.0, 0.5, 0.25, 1.0, 0.5, 1.5, 0.75, 2.0, 1.0],
    // the corners of the largest square, and its centre
    [-8.0, -8.0, 8.0, -8.0, 8.0, 8.0, -8.0, 8.0, 0.0, 0.0],
];

// The coordinates of a position; the eight come again and again.
fn coordinates(position: usize) -> [f64; 10]
    ensures { result ≡ coordinates position }
{
    let all = POSITIONS;
    all[position % 8]
}

// The five points of a position at the front of what is lent, with room for those that a run adds.
pub fn placed(position: usize) -> [f64; 72]
    ensures { result ≡ placed (coordinates position) }
{
    let c = coordinates(position);
    let mut points = [0.0; 72];
    points[0] = c[0];
    points[1] = c[1];
    points[3] = c[2];
    points[4] = c[3];
    points[6] = c[4];
    points[7] = c[5];
    points[9] = c[6];
    points[10] = c[7];
    points[12] = c[8];
    points[13] = c[9];
    points
}
