// The parameters of a run, from the stated numbers.
ghost use Rattle.std.specs.Prelude.{◌≡◌};
ghost use Rattle.refusals.specs.Stated.{asked};
ghost use Rattle.mesher.specs.Parts.{bucket_of, rules_with};

use cells::layout::Layout;
use refusals::Stated;
use rules::Rules;

// A size up to this is none.
const TINY_SIZE: f64 = 1e-9;

// The bucket's side without a size.
const NO_SIZE: f64 = 1.0;

// The stop rule that keeps components even.
const EVEN: u32 = 1;

// The bucket's side: the size, or 1.0 without one.
fn bucket_of(size: f64) -> f64
    ensures { result ≡ bucket_of size }
{
    if size > TINY_SIZE {
        return size;
    }
    NO_SIZE
}

// Kept (4): no struct is copied, for the rules are made of stated numbers and three others.
// The parameters of a run with at most so many attempts, and so many words of trace.
pub fn rules_of(stated: Stated, lay: Layout, attempts: usize, room: usize) -> Rules
    ensures { result ≡ rules_with attempts room (asked stated) lay (bucket_of stated.size) }
{
    let bucket = bucket_of(stated.size);
    let even = stated.stop == EVEN;
    let quality = stated.quality;
    Rules {
        lay,
        given: stated.count,
        bucket,
        size: stated.size,
        even,
        attempts,
        room,
        quality,
    }
}
