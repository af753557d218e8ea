// What an attempt hands back, beside the lent slices; its relation to the definition is in specs.
#![tactic(auto)]

ghost use Rattle.std.specs.Prelude.{◌≡◌};
ghost use Rattle.outcomes.specs.Ends.{Plain};

use cells::counters::Counters;

// What is left too little of, so that a run ends: no point, too few slots, or too little of the trace.
#[derive(Clone, Copy, PartialEq, Eq)]
pub enum Shortage {
    NoPoint,
    NoSlots,
    NoTrace,
}

// What an attempt is refused under, by the names of the counts.
#[derive(Clone, Copy, PartialEq, Eq)]
pub enum Kind {
    Placement,
    InvalidQuad,
    Recovery,
    Region,
    OddRegion,
}

// A quad that was placed: its nodes, around it from the front edge on, and how many triangles it replaced.
#[derive(Clone, Copy)]
pub struct Placed {
    pub n0: usize,
    pub n1: usize,
    pub n2: usize,
    pub n3: usize,
    pub replaced: usize,
}

// How an attempt ends: a quad is placed; it is refused; or the run ends for want of lent memory.
#[derive(Clone, Copy)]
pub enum End {
    Placed(Placed),
    Refused(Kind),
    Short(Shortage),
}

// The end of an attempt, the counters after it, the words used of the trace, the insertions that it made,
// the pairs that it tried and the flips that it made.
#[derive(Clone, Copy)]
pub struct Tried {
    pub end: End,
    pub counters: Counters,
    pub at: usize,
    pub inserted: usize,
    pub trials: usize,
    pub flips: usize,
}

impl Tried {
    // An attempt that ends before its first pair.
    pub fn without_trial(end: End, counters: Counters, at: usize, inserted: usize) -> Tried
        ensures { Plain end counters at inserted 0 0 result }
    {
        Tried {
            end,
            counters,
            at,
            inserted,
            trials: 0,
            flips: 0,
        }
    }
}
