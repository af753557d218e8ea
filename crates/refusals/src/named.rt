// The refusals by name; their numbers are those of C's header and of the papers.
#![tactic(auto)]

ghost use Rattle.std.specs.Prelude.{◌≡◌};
ghost use Rattle.refusals.specs.Numbers.{number, number_or_0, refusal_of};

use outcomes::Shortage;

// Why a call is refused; no refusal has the number 0, nor 10.
#[derive(Clone, Copy, PartialEq, Eq)]
pub enum Refusal {
    // Too many triangles or given points, or a capacity over its limit.
    OverLimit = 1,
    // A size that is neither a zero nor between its limits.
    BadSize = 2,
    // A stop rule that is neither 0 nor 1.
    BadStop = 3,
    // A slice shorter than stated.
    TooShort = 4,
    // A node that is not among the given points.
    UnknownNode = 5,
    // A triangle with a node twice.
    RepeatedNode = 6,
    // A given point that is not finite or beyond the limit.
    FarPoint = 7,
    // An insertion, with the point capacity used up.
    NoPoint = 8,
    // A split with fewer than two slots free, or a quad with none.
    NoSlots = 9,
    // An entry that does not fit the lent trace.
    NoTrace = 11,
    // An entry of a trace that can't be replayed.
    BadTrace = 12,
    // A joint whose nodes are one or unknown, or too many joints.
    BadJoint = 13,
    // A quality set out of its ranges.
    BadQuality = 14,
    // In the grid profile, a given point off the grid, or a size that is not zero.
    OffGrid = 15,
    // A job's state that no job is in.
    BadJob = 16,
}

impl From<Refusal> for u32 {
    ghost from_gives = { λ r n. n ≡ number r };

    fn from(r: Refusal) -> u32 {
        r as u32
    }
}

impl From<Refusal> for usize {
    ghost from_gives = { λ r n. n ≡ number r };

    fn from(r: Refusal) -> usize {
        r as usize
    }
}

// What ends a run refuses the call.
impl From<Shortage> for Refusal {
    ghost from_gives = { λ s r. r ≡ refusal_of s };

    // Kept (4): three refusals of fifteen have a shortage, so no derive gives this one table of them.
    // Kept (2): alike by chance, library's `order_number` maps orders to numbers.
    fn from(s: Shortage) -> Refusal {
        match s {
            Shortage::NoPoint => Refusal::NoPoint,
            Shortage::NoSlots => Refusal::NoSlots,
            Shortage::NoTrace => Refusal::NoTrace,
        }
    }
}

// Kept (1): C's functions answer with numbers, and clauses here and above go by `number_or_0`.
// For those that answer numbers: a refusal's number, and 0 where there is none.
pub fn number_or_0(found: Result<(), Refusal>) -> usize
    ensures { result ≡ number_or_0 found }
{
    match found {
        Ok(()) => 0,
        Err(r) => r.into(),
    }
}
