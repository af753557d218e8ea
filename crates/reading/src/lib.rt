// The program's input text, read whole into lent slices.
#![tactic(auto)]

pub mod found;
mod lists;
mod values;

ghost use Rattle.std.specs.Prelude.{◌≡◌, ◌≤◌, length, IfSome, MatchOption};
ghost use Rattle.std.proofs.Math.Option.{none};
ghost use Rattle.reading.specs.Found.{taken};
ghost use Rattle.reading.specs.Whole.{heading, WholeRead};

use crate::found::Header;
use crate::values::ended;

// The most triangles, and points, that the program takes.
const MOST_LISTED: u32 = 64;

// The most bytes of input.
const MOST_BYTES: usize = 8192;

// The first two lines: the names of the input's numbers, and the numbers.
fn header(s: &[u8]) -> Option<(Header, &[u8])>
    ensures reads { MatchOption result (none ≡ heading s.now) (λ t. taken t.0 t.1.now ≡ heading s.now) }
    ensures few { IfSome result (λ t. (t.0.triangles ≤ 64) × (t.0.points ≤ 64)) }
{
    let line = values::expect(s, b"triangles points size stop\n")?;
    let (triangles, after_triangles) = ended(values::decimal(line, MOST_LISTED), b' ')?;
    let (points, after_points) = ended(values::decimal(after_triangles, MOST_LISTED), b' ')?;
    let (size, after_size) = ended(values::bits(after_points), b' ')?;
    let (stop, rest) = ended(values::digit(after_size), b'\n')?;
    let h = Header {
        triangles: triangles as usize,
        points: points as usize,
        size,
        stop,
    };
    Some((h, rest))
}

// The input, with the node numbers in `tris` and the points' bits in `bits`, three to a row;
// nothing where it is not in its form.
pub fn read(s: &[u8], tris: &mut [u32], bits: &mut [u64]) -> Option<Header>
    requires { (192 ≤ length tris.old) × (192 ≤ length bits.old) }
    ensures { WholeRead s.now tris.old tris.new bits.old bits.new result }
{
    if s.len() > MOST_BYTES {
        return None;
    }
    let (h, lists) = header(s)?;
    let points = lists::list(lists, b"n0 n1 n2\n", h.triangles, tris)?;
    let rest = lists::list(points, b"x y z\n", h.points, bits)?;
    if !rest.is_empty() {
        return None;
    }
    Some(h)
}
