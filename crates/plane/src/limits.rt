// The constants of the scope that this crate's tests use.

// A cross product or twice an area counts as zero up to this.
pub const TINY: f64 = 1e-12;

// An edge shorter or longer than these many targets is off its target.
pub const MISMATCH_LOW: f64 = 0.5;

pub const MISMATCH_HIGH: f64 = 1.5;
