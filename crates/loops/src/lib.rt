// The front's loops and their perimeters.
#![tactic(auto)]

pub mod front;
pub mod keep;
pub mod links;
pub mod walks;
