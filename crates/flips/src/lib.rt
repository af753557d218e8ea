// Edges flipped, triangles split, and an edge recovered by flips.
#![tactic(auto)]

pub mod flip;
pub mod recover;
pub mod split;
