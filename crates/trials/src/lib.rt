// The best pairs of side nodes of an attempt.
#![tactic(auto)]

pub mod first_corner;
pub mod kept;
pub mod ranked;
