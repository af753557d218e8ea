// The live region: triangles reached from a seed through those that are near a point.
#![tactic(auto)]

pub mod live;
pub mod reach;
pub mod stack;
