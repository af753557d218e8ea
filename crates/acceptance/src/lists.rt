// Every list against the stored hashes.
ghost use Rattle.small.specs.Small.{said, triangles_of};
ghost use Rattle.acceptance.specs.Tallies.{listed, list_at, Lists, Met, Tallies};

use crate::runs::{Triangles, list_hash};
use refusals::Refusal;
use small::{Mesh, small_mesh};

// How many lists were meshed, and how many of them had the stored hash.
// Kept (1): of one list too these are counts: `Met` of specs/Tallies says so of this type.
#[derive(Clone, Copy)]
pub struct Tally {
    pub made: u64,
    pub agreed: u64,
}

// The triangles of a list, the nodes behind them 0.
fn nodes_of(mesh: Mesh) -> Triangles
    ensures { Lists (triangles_of mesh) result }
{
    match mesh {
        Mesh::One(a) => {
            let nodes = [a.n0, a.n1, a.n2, 0, 0, 0, 0, 0, 0];
            Triangles { nodes, count: 1 }
        }
        Mesh::Two(a, b) => {
            let nodes = [a.n0, a.n1, a.n2, b.n0, b.n1, b.n2, 0, 0, 0];
            Triangles { nodes, count: 2 }
        }
        Mesh::Three(a, b, c) => {
            let nodes = [a.n0, a.n1, a.n2, b.n0, b.n1, b.n2, c.n0, c.n1, c.n2];
            Triangles { nodes, count: 3 }
        }
    }
}

// The triangles of the list that was found; none where there is no list.
fn triangles_of(found: Result<Option<Mesh>, Refusal>) -> Triangles
    ensures { Lists (listed (said found)) result }
{
    let list = found.unwrap_or(None);
    match list {
        Some(mesh) => nodes_of(mesh),
        None => {
            let nodes = [0; 9];
            Triangles { nodes, count: 0 }
        }
    }
}

// The list at a place against a stored hash.
fn met(points: u32, place: usize, stored: u64) -> Tally
    ensures { Met points (list_at points place) stored result }
{
    let list = triangles_of(small_mesh(points, place));
    if list.count == 0 {
        return Tally { made: 0, agreed: 0 };
    }
    if list_hash(points as usize, list) == stored {
        return Tally { made: 1, agreed: 1 };
    }
    Tally { made: 1, agreed: 0 }
}

// The lists on so many points against their stored hashes, place by place.
pub fn meshed(points: u32, stored: &[u64]) -> Tally
    ensures { Tallies points stored.now result }
{
    let mut made: u64 = 0;
    let mut agreed: u64 = 0;
    for (place, hash) in stored.iter().enumerate() {
        let t = met(points, place, *hash);
        made += t.made;
        agreed += t.agreed;
    }
    Tally { made, agreed }
}
