// The worst so far, and one quad more.
ghost use Rattle.std.specs.Prelude.{◌≡◌, Bool, Float};
ghost use mathlib.Core.List.{[], ◌∷◌, foldl};
ghost use Rattle.definition.specs.Floats.{◌≺◌};
ghost use Rattle.definition.specs.Sheet.{values, worse};
ghost use Rattle.plane.specs.Measures.{metrics_of_enum};
ghost use Rattle.sheet_steps.specs.Values.{worst_in, quad_of};

use crate::Worst;
use plane::metrics::Metrics;

// The worse of two values by a test, and the earlier one where it holds of neither.
fn worse<F: FnOnce(f64, f64) -> bool>(w: Worst, i: usize, x: f64, than: F) -> Worst
    requires { F.IsAlwaysCallable than }
    ensures { (r : Float → Float → Bool) → ((a b : Float) (t : Bool) → F.post than a b t → t ≡ r a b) → worst_in result ≡ worse r (worst_in w) (i, x) }
{
    match w {
        Some((_, y)) => {
            if than(x, y) {
                return Some((i, x));
            }
            w
        }
        None => Some((i, x)),
    }
}

// The least scaled Jacobian after quad i.
pub fn worst_jacobian(least: Worst, i: usize, m: Option<Metrics>) -> Worst
    ensures { worst_in result ≡ foldl (worse (λ x y. x ≺ y)) (worst_in least) (values (λ sj k. sj) i (metrics_of_enum m ∷ [])) }
{
    match m {
        None => least,
        Some(t) => worse(least, i, t.jacobian, |x, y| x < y),
    }
}

// The largest cosine after quad i.
pub fn worst_cosine(largest: Worst, i: usize, m: Option<Metrics>) -> Worst
    ensures { worst_in result ≡ foldl (worse (λ x y. y ≺ x)) (worst_in largest) (values (λ sj k. k) i (metrics_of_enum m ∷ [])) }
{
    match m {
        None => largest,
        Some(t) => worse(largest, i, t.cosine, |x, y| x > y),
    }
}

// The quad that has the worst, or another number where there is none.
// Kept (1): the C interface has one number for a quad or none; within Rattle the worst is an Option.
// Kept (4): `map_or` with a closure for two arms is no plainer.
pub fn quad_of(w: Worst, none: usize) -> usize
    ensures { result ≡ quad_of none (worst_in w) }
{
    match w {
        None => none,
        Some((i, _)) => i,
    }
}
