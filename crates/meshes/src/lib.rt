// Cells come into the mesh and go; the mesh of the given triangles.
#![tactic(auto)]

pub mod build;
pub mod store;
