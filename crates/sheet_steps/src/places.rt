// The place in which a quad is counted.
ghost use Rattle.std.specs.Prelude.{cond, ◌≡◌, ◌≤◌, Float};
ghost use Rattle.definition.specs.Floats.{◌≼◌};
ghost use Rattle.definition.specs.Metrics.{measured};
ghost use Rattle.definition.specs.Sheet.{place};
ghost use Rattle.plane.specs.Measures.{metrics_of_enum};

use plane::metrics::Metrics;

// The place of quads without metrics.
const NO_METRICS: usize = 10;

// 1 where the bound is reached.
fn reached(bound: f64, sj: f64) -> usize
    ensures { (result ≡ cond (bound ≼ sj) 1 0) × (result ≤ 1) }
{
    if bound <= sj {
        return 1;
    }
    0
}

// How many bounds a scaled Jacobian reaches.
fn step(sj: f64) -> usize
    ensures { (((k : Float) → result ≡ place (measured sj k))) × (result ≤ 9) }
{
    reached(0.1, sj)
        + reached(0.2, sj)
        + reached(0.3, sj)
        + reached(0.4, sj)
        + reached(0.5, sj)
        + reached(0.6, sj)
        + reached(0.7, sj)
        + reached(0.8, sj)
        + reached(0.9, sj)
}

// The place of a quad with these metrics.
pub fn place(m: Option<Metrics>) -> usize
    ensures { (result ≡ place (metrics_of_enum m)) × (result ≤ 10) }
{
    match m {
        None => NO_METRICS,
        Some(t) => step(t.jacobian),
    }
}
