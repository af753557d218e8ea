// What side nodes are looked for by.
ghost use Rattle.std.proofs.Props.{props};
ghost use Rattle.rules.specs.Settings.{quality_of};
ghost use Rattle.candidates.specs.Choice.{FarFrom};

use edge_candidates::wishes::Wish;
use plane::vectors::Vec;
use rules::Quality;

// The side to turn to, the end of the front edge and its other end, the inward normal,
// the target and the set of factors.
#[derive(Clone, Copy)]
pub struct Aim {
    pub left: bool,
    pub end: usize,
    pub other: usize,
    pub normal: Vec,
    pub target: f64,
    pub quality: Quality,
}

// What side nodes are looked for by, with what is worked out once for all nodes:
// a number that the square of a length is beyond only where the length is too far,
// and what is wanted by edges, with the place from which on it is listed.
#[derive(Clone, Copy)]
pub struct Known {
    pub aim: Aim,
    pub far: f64,
    pub at: usize,
    pub wish: Wish,
    ghost far_from: { FarFrom (quality_of aim.quality) far aim.target } by { Prim.hlevel props },
}
