// The components of the live triangles.
#![tactic(auto)]

pub mod around;
pub mod flood;
pub mod marks;
pub mod near;
pub mod odd;
pub mod sizes;
