// A double of two words, the low one first.
ghost use Rattle.std.specs.Prelude.{◌≡◌};
ghost use Rattle.definition.specs.Floats.{f64};
ghost use Rattle.definition.specs.Trace.{double_of};

use words::float_of;

// As many numbers as a word has.
const WORD: u64 = 4294967296;

// The double of two words.
pub fn double(low: u32, high: u32) -> f64
    ensures { result ≡ double_of low high }
{
    let below = low as u64;
    let above = high as u64;
    float_of(below + WORD * above)
}
