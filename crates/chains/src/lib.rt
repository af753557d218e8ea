// Longer answers of the Rust as theorems of specs/; this crate has no functions.
#![tactic(auto)]
