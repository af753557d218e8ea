// One quad in the quality sheet: the step that it is counted in, and the worst so far.
#![tactic(auto)]

pub mod places;
pub mod values;

// The first quad that has the worst value, and that value; `None` where no quad has a value.
pub type Worst = Option<(usize, f64)>;
