// The smallest edge of the mesh that crosses a segment.
#![tactic(auto)]

pub mod boxes;
pub mod buckets;
pub mod cross;
