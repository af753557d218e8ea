// The cell mesh in lent memory: its layout, its relation to the mesh of the definition, and what is read of it.
#![tactic(auto)]

pub mod clear;
pub mod counters;
pub mod evens;
pub mod find;
pub mod layout;
