// The hash with what a call returned.
ghost use Rattle.std.specs.Prelude.{◌≡◌, ◌∷◌, Ok};
ghost use Rattle.hashing.specs.Hash.{hash, word};
ghost use Rattle.mesher.specs.Promise.{answered, counts_in, lengths_in};
ghost use Rattle.acceptance.specs.Folded.{counted, with_slices};

use hashing::{mixed, mixed_all};
use mesher::Answer;
use refusals::Refusal;

// The hash with the counts, the lengths and the pairs tried.
fn mixed_counts(start: u64, a: Answer) -> u64
    ensures { let r = answered (Ok a) in result ≡ hash word start (counted (counts_in r) (lengths_in r)) }
{
    let mut h = mixed(start, a.front_empty as u64);
    h = mixed(h, a.attempts as u64);
    h = mixed(h, a.placement as u64);
    h = mixed(h, a.invalid_quad as u64);
    h = mixed(h, a.recovery as u64);
    h = mixed(h, a.region as u64);
    h = mixed(h, a.odd_region as u64);
    h = mixed(h, a.mismatch_insertions as u64);
    h = mixed(h, a.limit as u64);
    h = mixed(h, a.quads as u64);
    h = mixed(h, a.triangles as u64);
    h = mixed(h, a.points as u64);
    h = mixed(h, a.components as u64);
    mixed(h, a.trials as u64)
}

// The hash with the refusal's number, the counts, the lengths and the pairs tried.
pub fn mixed_answer(start: u64, a: Result<Answer, Refusal>) -> u64
    ensures { let r = answered a in result ≡ hash word start (r.refusal ∷ counted (counts_in r) (lengths_in r)) }
{
    match a {
        Ok(a) => mixed_counts(mixed(start, 0), a),
        Err(k) => mixed_counts(mixed(start, usize::from(k) as u64), Answer::default()),
    }
}

// The hash with four whole slices.
pub fn mixed_slices(
    start: u64,
    quads: &[u32],
    out: &[u32],
    components: &[u32],
    points: &[f64],
) -> u64
    ensures { result ≡ with_slices start quads.now out.now components.now points.now }
{
    let placed = mixed_all(start, quads, quads.len());
    let left = mixed_all(placed, out, out.len());
    let sizes = mixed_all(left, components, components.len());
    mixed_all(sizes, points, points.len())
}
