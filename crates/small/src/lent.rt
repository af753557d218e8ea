// The list at a place in lent memory, for programs in C and Rust: how many triangles it has, then their nodes.
ghost use Rattle.std.specs.Prelude.{◌≤◌, length};
ghost use Rattle.refusals.specs.Numbers.{number_or_0};
ghost use Rattle.small.specs.Small.{mesh, triangles_of};
ghost use Rattle.small.specs.Lent.{Written, Put};

use crate::{Mesh, small_mesh};
use refusals::Refusal;

// Numbers of the longest list: how many triangles it has, and three nodes each.
const NUMBERS: usize = 10;

// A list comes to the front of the slice.
fn write(list: &mut [u32], triangles: Mesh)
    requires { 10 ≤ length list.old }
    ensures { Written (mesh (triangles_of triangles)) list.old 0 list.new }
{
    match triangles {
        Mesh::One(a) => {
            list[0] = 1;
            list[1] = a.n0;
            list[2] = a.n1;
            list[3] = a.n2;
        }
        Mesh::Two(a, b) => {
            list[0] = 2;
            list[1] = a.n0;
            list[2] = a.n1;
            list[3] = a.n2;
            list[4] = b.n0;
            list[5] = b.n1;
            list[6] = b.n2;
        }
        Mesh::Three(a, b, c) => {
            list[0] = 3;
            list[1] = a.n0;
            list[2] = a.n1;
            list[3] = a.n2;
            list[4] = b.n0;
            list[5] = b.n1;
            list[6] = b.n2;
            list[7] = c.n0;
            list[8] = c.n1;
            list[9] = c.n2;
        }
    }
}

// The list at a place: the front of the slice has the number of triangles and their nodes.
// A number of 0 triangles says that the order has ended.
// A refusal leaves the slice as it was: 1 for other numbers of points than 3, 4 and 5,
// then 4 for a slice of fewer than ten numbers.
pub fn put_small_mesh(points: u32, place: usize, list: &mut [u32]) -> Result<(), Refusal>
    ensures { Put points place list.old (number_or_0 result) list.new }
{
    let found = small_mesh(points, place)?;
    if list.len() < NUMBERS {
        return Err(Refusal::TooShort);
    }
    match found {
        Some(triangles) => write(list, triangles),
        None => list[0] = 0,
    }
    Ok(())
}
