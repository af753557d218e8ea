// The exact geometric tests of the definition (`Exact`), over whole numbers of 2^-1074:
// each answers true exactly where its statement holds.
// A test on doubles answers first, where its error bound decides; wide numbers answer the rest.
#![tactic(auto)]

pub mod corners;
mod cosines;
mod differences;
pub mod limits;
pub mod turns;
pub mod wide;
