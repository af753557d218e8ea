// What a front edge would give, as crate `previews` finds it out.

pub use outcomes::Kind;

// A quad with its birth: its nodes, the edge it grew from, its round and how many triangles it replaced.
#[derive(Clone, Copy)]
pub struct Born {
    pub n0: usize,
    pub n1: usize,
    pub n2: usize,
    pub n3: usize,
    pub u: usize,
    pub v: usize,
    pub round: usize,
    pub replaced: usize,
}

// What the attempt costs.
#[derive(Clone, Copy)]
pub struct Cost {
    pub insertions: usize,
    pub flips: usize,
}

// Kept (1): three ends, each with its cost, are no Option or Result, and C tells them apart.
// Not on the front, at no cost; the quad; or what the attempt is refused under.
#[derive(Clone, Copy)]
pub enum Shown {
    OffFront(Cost),
    Quad(Born, Cost),
    Refused(Kind, Cost),
}
