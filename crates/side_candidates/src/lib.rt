// Side nodes for an end of a front edge.
#![tactic(auto)]

pub mod blocks;
pub mod inside;
pub mod sides;
