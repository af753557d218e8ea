// Every small mesh: the lists of one to three different triangles on 3, 4 or 5 points, by their place in the order.
#![tactic(auto)]

pub mod lent;

ghost use Rattle.std.specs.Prelude.{◌≡◌, ◌≤◌};
ghost use Rattle.small.specs.Small.{answer, mesh, said, triangles_of};
ghost use Rattle.small.specs.Counts.{Counted, HasPlace, PairThere, TripleThere, Listed};

use refusals::Refusal;

// Three nodes, ascending.
#[derive(Clone, Copy)]
pub struct Triangle {
    pub n0: u32,
    pub n1: u32,
    pub n2: u32,
}

// One to three triangles.
#[derive(Clone, Copy)]
pub enum Mesh {
    One(Triangle),
    Two(Triangle, Triangle),
    Three(Triangle, Triangle, Triangle),
}

// How many pairs n things have.
fn pairs(n: u32) -> u32
    requires { n ≤ 10 }
    ensures { Counted 2 n result }
{
    if n == 0 {
        return 0;
    }
    n * (n - 1) / 2
}

// How many triples n things have.
fn triples(n: u32) -> u32
    requires { n ≤ 10 }
    ensures { Counted 3 n result }
{
    if n < 2 {
        return 0;
    }
    n * (n - 1) * (n - 2) / 6
}

// The pair at a place among the n numbers from `from`, ascending.
// The pairs that start with a number are as many as the numbers after it.
fn pair_at(from: u32, n: u32, place: u32) -> (u32, u32)
    requires { HasPlace 2 from n place }
    ensures { PairThere from n place result }
{
    let mut first = from;
    let mut after = n - 1;
    let mut left = place;
    // Kept (3): in a `for` over the first numbers the count of those after it runs beside it all the same,
    // and something would stand behind its end, which is never reached.
    while left >= after {
        left -= after;
        after -= 1;
        first += 1;
    }
    (first, first + 1 + left)
}

// The triple at a place among the numbers below n.
// Those that start with a number are as many as the pairs of the numbers after it.
fn triple_at(n: u32, place: u32) -> Triangle
    requires { HasPlace 3 0 n place }
    ensures { TripleThere n place result }
{
    let mut first = 0;
    let mut after = n - 1;
    let mut left = place;
    let mut block = pairs(after);
    // Kept (3): as in `pair_at`.
    while left >= block {
        left -= block;
        after -= 1;
        first += 1;
        block = pairs(after);
    }
    let (second, third) = pair_at(first + 1, after, left);
    Triangle {
        n0: first,
        n1: second,
        n2: third,
    }
}

// The list at a place of the order for 3, 4 or 5 points: the m triangles one by one, then their pairs,
// then their triples.
fn list_at(points: u32, m: u32, place: u32) -> Mesh
    requires { Listed points m place }
    ensures { mesh (triangles_of result) ≡ answer points place }
{
    if place < m {
        return Mesh::One(triple_at(points, place));
    }
    let beyond = place - m;
    let two = pairs(m);
    if beyond < two {
        let (first, second) = pair_at(0, m, beyond);
        return Mesh::Two(triple_at(points, first), triple_at(points, second));
    }
    let t = triple_at(m, beyond - two);
    Mesh::Three(
        triple_at(points, t.n0),
        triple_at(points, t.n1),
        triple_at(points, t.n2),
    )
}

// The list at a place of the order, from 0; `None` where the order has ended.
// Other numbers of points than 3, 4 and 5 are refused, whatever the place.
pub fn small_mesh(points: u32, place: usize) -> Result<Option<Mesh>, Refusal>
    ensures { said result ≡ answer points place }
{
    if points < 3 {
        return Err(Refusal::OverLimit);
    }
    if points > 5 {
        return Err(Refusal::OverLimit);
    }
    let m = triples(points);
    let last = m + pairs(m) + triples(m) - 1;
    if place > last as usize {
        return Ok(None);
    }
    Ok(Some(list_at(points, m, place as u32)))
}
