// Plane predicates and quad metrics over the lent points.
#![tactic(auto)]

pub mod area;
pub mod floats;
pub mod jacobian;
pub mod lengths;
pub mod limits;
pub mod metrics;
pub mod points;
pub mod sides;
pub mod vectors;
