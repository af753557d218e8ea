// Single functions for the benchmark, to be linked from Rust: the square root, and a quad's score by its metrics.
#![tactic(auto)]

ghost use Rattle.std.specs.Prelude.{◌≡◌};
ghost use Rattle.definition.specs.Root.{sqrt};
ghost use Rattle.definition.specs.Plane.{flat};
ghost use Rattle.definition.specs.Metrics.{quad_metrics, score};

use plane::metrics::{quad_metrics_of, score};
use plane::points::Spot;

// The square root.
#[unsafe(no_mangle)]
pub extern "C" fn sedgepick_sqrt(x: f64) -> f64
    ensures { result ≡ sqrt x }
{
    root::sqrt(x)
}

// The score of the quad of four points.
#[unsafe(no_mangle)]
pub extern "C" fn sedgepick_quad_score(
    ax: f64,
    ay: f64,
    bx: f64,
    by: f64,
    cx: f64,
    cy: f64,
    dx: f64,
    dy: f64,
) -> f64
    ensures { result ≡ score (quad_metrics (flat ax ay) (flat bx by) (flat cx cy) (flat dx dy)) }
{
    let a = Spot { x: ax, y: ay };
    let b = Spot { x: bx, y: by };
    let c = Spot { x: cx, y: cy };
    let d = Spot { x: dx, y: dy };
    let m = quad_metrics_of(a, b, c, d);
    score(m)
}
