// What a run counted, and how a step of it ends.
ghost use Rattle.std.specs.Prelude.{◌≡◌, ◌+◌, ◌^◌, ◌<◌};
ghost use Rattle.definition.specs.Counts.{Refusal, at_limit, emptied, refused_by};
ghost use Rattle.cells.specs.Counting.{Few};
ghost use Rattle.outcomes.specs.Ends.{kind_of};
ghost use Rattle.settling.specs.Standings.{FewCounts, CountedOne, CountsMore, TriedMore, Quadded, Recorded, FewTally, tally_refused};

use cells::counters::Counters;
use outcomes::{Kind, Shortage};

// What a run counted so far, attempts apart (they stand in the counters).
#[derive(Clone, Copy)]
pub struct Tally {
    pub front_empty: usize,
    pub placement: usize,
    pub invalid_quad: usize,
    pub recovery: usize,
    pub region: usize,
    pub odd_region: usize,
    pub mismatch_insertions: usize,
    pub limit: usize,
    pub trials: usize,
}

// The state of a run beside the lent slices: counters, tally, quads placed, edges that have a record of refusal,
// words used of the trace.
#[derive(Clone, Copy)]
pub struct Standing {
    pub counters: Counters,
    pub tally: Tally,
    pub quads: usize,
    pub records: usize,
    pub words: usize,
}

// How a step ends: no quad; a quad placed; a limit ended the run; or the run ends for want of lent memory.
// Kept (1): a Result would need an enum of the first three ends inside: two types for one, and no `?` takes it.
#[derive(Clone, Copy, PartialEq, Eq)]
pub enum Going {
    Stuck,
    Progressed,
    Limited,
    Short(Shortage),
}

// A step's end and the standing after it.
#[derive(Clone, Copy)]
pub struct Step {
    pub kind: Going,
    pub standing: Standing,
}

// A run's end, refused where lent memory did not do, and the standing after it.
#[derive(Clone, Copy)]
pub struct Run {
    pub finish: Result<(), Shortage>,
    pub standing: Standing,
}

impl Tally {
    // One more refusal of this kind.
    fn refused(mut self, kind: Kind) -> Self
        requires { FewTally self }
        ensures { result ≡ tally_refused kind self }
    {
        match kind {
            Kind::Placement => self.placement += 1,
            Kind::InvalidQuad => self.invalid_quad += 1,
            Kind::Recovery => self.recovery += 1,
            Kind::Region => self.region += 1,
            Kind::OddRegion => self.odd_region += 1,
        }
        self
    }
}

impl Standing {
    // An attempt is counted.
    pub fn counted(mut self) -> Self
        requires { Few self.counters }
        ensures { CountedOne self result }
    {
        self.counters = self.counters.attempted();
        self
    }

    // A limit ended the run.
    pub fn limited(mut self) -> Self
        requires { FewCounts self }
        ensures { CountsMore self at_limit result }
    {
        self.tally.limit += 1;
        self
    }

    // The front was found empty.
    pub fn emptied(mut self) -> Self
        requires { FewCounts self }
        ensures { CountsMore self emptied result }
    {
        self.tally.front_empty += 1;
        self
    }

    // An attempt made n insertions, tried k pairs and left the counters c and `at` words of the trace.
    pub fn tried(mut self, c: Counters, at: usize, n: usize, k: usize) -> Self
        requires few_counts { FewCounts self }
        requires n_bound { self.tally.mismatch_insertions + n < 2 ^ 32 }
        requires k_bound { self.tally.trials + k < 2 ^ 32 }
        ensures { TriedMore self c at n k result }
    {
        self.counters = c;
        self.tally.mismatch_insertions += n;
        self.tally.trials += k;
        self.words = at;
        self
    }

    // A quad was placed.
    pub fn quadded(mut self) -> Self
        requires { self.quads < 2 ^ 32 }
        ensures { Quadded self result }
    {
        self.quads += 1;
        self
    }

    // The standing in which n edges have a record of refusal.
    pub fn recorded(mut self, n: usize) -> Self
        ensures { Recorded self n result }
    {
        self.records = n;
        self
    }

    // An attempt is refused under this kind.
    pub fn refused(mut self, kind: Kind) -> Self
        requires { FewCounts self }
        ensures { (why : Refusal) → kind ≡ kind_of why → CountsMore self (refused_by why) result }
    {
        self.tally = self.tally.refused(kind);
        self
    }
}
