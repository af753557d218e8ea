// The parameters fixed for a run, in one struct, `Rules`: built once and passed by value.
#![tactic(auto)]

ghost use Rattle.std.specs.Prelude.{◌≡◌};
ghost use Rattle.definition.specs.Numbers.{base};
ghost use Rattle.rules.specs.Settings.{quality_of};

use cells::layout::Layout;

// The most pairs that a quality set may permit.
pub const MOST_PAIRS: usize = 64;

// The quality set: the numbers that an office may set.
// A quad passes with a scaled Jacobian of at least `least_jacobian` and a largest cosine of at most `largest_cosine`.
// The distance of a side node lies between two factors of the target.
// `pairs` is the most pairs that an attempt tries.
#[derive(Clone, Copy)]
pub struct Quality {
    pub least_jacobian: f64,
    pub largest_cosine: f64,
    pub side_low: f64,
    pub side_high: f64,
    pub pairs: usize,
}

// The standard set.
pub fn standard_quality() -> Quality
    ensures { quality_of result ≡ base }
{
    Quality {
        least_jacobian: 0.3,
        largest_cosine: 0.90630778703665,
        side_low: 0.5,
        side_high: 2.2,
        pairs: 8,
    }
}

#[derive(Clone, Copy)]
pub struct Rules {
    pub lay: Layout,
    pub given: usize,
    pub bucket: f64,
    pub size: f64,
    pub even: bool,
    // The most attempts.
    pub attempts: usize,
    // Words of the lent trace, 0 where none is lent.
    pub room: usize,
    pub quality: Quality,
}
