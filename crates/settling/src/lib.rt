// What a run counted, and what an attempt leaves behind.
#![tactic(auto)]

pub mod settle;
pub mod standing;
