// The mesh of a trace, built again: its entries are done one after the other, each tested first.
#![tactic(auto)]

pub mod doubles;
pub mod ending;
pub mod entries;
pub mod opening;
pub mod quads;
pub mod replays;
pub mod splits;
pub mod turns;

// What the caller states: given points, point capacity, triangles, slots, and the words of the trace.
#[derive(Clone, Copy)]
pub struct Told {
    pub given: usize,
    pub capacity: usize,
    pub count: usize,
    pub slots: usize,
    pub words: usize,
}

// The state of a replay that goes on: the words read so far, the slots given out, the points and the quads;
// and whether a quad has a node twice.
#[derive(Clone, Copy)]
pub struct Playing {
    pub at: usize,
    pub used: usize,
    pub points: usize,
    pub quads: usize,
    pub odd: bool,
}
