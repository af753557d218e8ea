// A list in every setting.
ghost use Rattle.std.specs.Prelude.{◌≡◌};
ghost use Rattle.acceptance.specs.Folded.{folded};
ghost use Rattle.acceptance.specs.Runs.{returned, hashed};

use crate::answers::{mixed_answer, mixed_slices};
use crate::positions::placed;
use hashing::BASIS;
use mesher::run_front;
use refusals::standard;

// Eight positions, four sizes, both stop rules, ample and scarce memory.
pub const SETTINGS: usize = 128;

const SIZES: [f64; 4] = [0.0, 0.25, 1.0, 3.0];

// Points and slots that a call states: enough for every run here, and too few for some.
const CAPACITIES: [usize; 2] = [24, 8];

const SLOTS: [usize; 2] = [48, 9];

// What the lists' slices hold beforehand; no node has this number.
const UNUSED: u32 = 4294967295;

// A list's triangles, three nodes each, and zeros behind them.
// Kept (6): `nodes_of` of specs/Runs says that all nine are lent, so the count is not the length of what a run takes.
#[derive(Clone, Copy)]
pub struct Triangles {
    pub nodes: [u32; 9],
    pub count: usize,
}

// The hash with what the call of a list in setting s returns.
fn mixed_run(start: u64, given: usize, list: Triangles, s: usize) -> u64
    ensures { result ≡ folded start (returned given list.count list.nodes s) }
{
    let capacities = CAPACITIES;
    let slots = SLOTS;
    let sizes = SIZES;
    let mut points = placed(s / 16);
    let triangles = list.nodes;
    let mut quads = [UNUSED; 384];
    let mut out = [UNUSED; 144];
    let mut components = [UNUSED; 48];
    let mut work = [0u32; 3264];
    let mut floats = [0.0; 192];
    let none = [0u32; 0];
    let mut no_trace = [0u32; 0];
    let stated = standard(
        given,
        capacities[s % 2],
        list.count,
        slots[s % 2],
        sizes[s / 4 % 4],
        (s / 2 % 2) as u32,
    );
    let a = run_front(
        &mut points,
        &triangles,
        &none,
        &mut quads,
        &mut out,
        &mut components,
        &mut work,
        &mut floats,
        &mut no_trace,
        stated,
    );
    let h = mixed_answer(start, a);
    mixed_slices(h, &quads, &out, &components, &points)
}

// The hash of what the calls of a list in all settings return.
pub fn list_hash(given: usize, list: Triangles) -> u64
    ensures { result ≡ hashed given list.count list.nodes 128 }
{
    let mut h = BASIS;
    for s in 0..SETTINGS {
        h = mixed_run(h, given, list, s);
    }
    h
}
