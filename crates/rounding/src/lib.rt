// The laws of the definition's square root and floor stand in specs/; this crate has no functions.
#![tactic(auto)]
