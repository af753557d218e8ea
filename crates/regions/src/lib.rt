// The region that a quad replaces.
#![tactic(auto)]

pub mod flood;
pub mod lists;
pub mod place;
pub mod region;
pub mod spares;
