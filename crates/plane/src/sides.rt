// On which side of a line a node lies.
ghost use Rattle.std.specs.Prelude.{◌≡◌, not, ◌&&◌, [], ◌∷◌};
ghost use Rattle.definition.specs.Call.{point_at};
ghost use Rattle.definition.specs.Floats.{◌⊗◌, ◌≼◌, 0·0};
ghost use Rattle.definition.specs.Lists.{any};
ghost use Rattle.definition.specs.Numbers.{tiny_cross};
ghost use Rattle.definition.specs.Plane.{flat, cross, side, parts, segments_cross, positive, negative, point_strictly_inside, inside_quad};
ghost use Rattle.plane.specs.Points.{Within, node};

use crate::limits::TINY;
use crate::points::{Spot, at};

// ---- spots

// Twice the signed area of the triangle a b c, positive where it runs counterclockwise.
pub fn cross_of(a: Spot, b: Spot, c: Spot) -> f64
    ensures { result ≡ cross (node a) (node b) (node c) }
{
    (b.x - a.x) * (c.y - a.y) - (b.y - a.y) * (c.x - a.x)
}

// r and s lie strictly on two sides of the line from p to q.
fn parts_of(p: Spot, q: Spot, r: Spot, s: Spot) -> bool
    ensures { result ≡ parts (node p) (node q) (node r) (node s) }
{
    cross_of(p, q, r) * cross_of(p, q, s) < 0.0
}

// ---- signs of cross products

// The number is above zero by more than the tolerance.
pub fn positive(d: f64) -> bool
    ensures { result ≡ positive d }
{
    d > TINY
}

// The number is below zero by more than the tolerance.
pub fn negative(d: f64) -> bool
    ensures { result ≡ negative d }
{
    d < -TINY
}

// The number is not above zero by more than the tolerance.
pub fn tiny(d: f64) -> bool
    ensures { result ≡ (d ≼ tiny_cross) }
{
    d <= TINY
}

// Kept (7): the three are what is tested, and none says which step to run.
// All three are true.
fn all_of(a: bool, b: bool, c: bool) -> bool
    ensures { result ≡ (a && b && c) }
{
    if a {
        if b {
            return c;
        }
    }
    false
}

// Kept (7): the four are what is tested, and none says which step to run.
// One of the four is true.
pub fn any_of(a: bool, b: bool, c: bool, d: bool) -> bool
    ensures { result ≡ any (λ t. t) (a ∷ b ∷ c ∷ d ∷ []) }
{
    if a {
        return true;
    }
    if b {
        return true;
    }
    if c {
        return true;
    }
    d
}

// All three numbers are above zero by more than the tolerance.
fn all_positive(d: f64, e: f64, f: f64) -> bool
    ensures { result ≡ (positive d && positive e && positive f) }
{
    all_of(positive(d), positive(e), positive(f))
}

// All three numbers are below zero by more than the tolerance.
fn all_negative(d: f64, e: f64, f: f64) -> bool
    ensures { result ≡ (negative d && negative e && negative f) }
{
    all_of(negative(d), negative(e), negative(f))
}

// One of the four numbers is above zero by more than the tolerance.
fn any_positive(d: f64, e: f64, f: f64, g: f64) -> bool
    ensures { result ≡ any positive (d ∷ e ∷ f ∷ g ∷ []) }
{
    any_of(positive(d), positive(e), positive(f), positive(g))
}

// One of the four numbers is below zero by more than the tolerance.
fn any_negative(d: f64, e: f64, f: f64, g: f64) -> bool
    ensures { result ≡ any negative (d ∷ e ∷ f ∷ g ∷ []) }
{
    any_of(negative(d), negative(e), negative(f), negative(g))
}

// ---- nodes of the lent points

// Twice the signed area of the triangle a b c.
pub fn cross(q: &[f64], a: usize, b: usize, c: usize) -> f64
    requires { Within q.now a × Within q.now b × Within q.now c }
    ensures { let p = point_at q.now in result ≡ cross (p a) (p b) (p c) }
{
    cross_of(at(q, a), at(q, b), at(q, c))
}

// On which side of the line from a to b the node c lies: positive on its left.
pub fn side(q: &[f64], a: usize, b: usize, c: usize) -> f64
    requires { Within q.now a × Within q.now b × Within q.now c }
    ensures { let p = point_at q.now in result ≡ side (p a) (p b) (p c) }
{
    cross(q, a, b, c)
}

// The segments u v and a b cross: each parts the ends of the other.
pub fn segments_cross(q: &[f64], u: usize, v: usize, a: usize, b: usize) -> bool
    requires { Within q.now u × Within q.now v × Within q.now a × Within q.now b }
    ensures { let p = point_at q.now in result ≡ segments_cross (p u) (p v) (p a) (p b) }
{
    let su = at(q, u);
    let sv = at(q, v);
    let sa = at(q, a);
    let sb = at(q, b);
    if parts_of(su, sv, sa, sb) {
        return parts_of(sa, sb, su, sv);
    }
    false
}

// a and b are not on one side of the line through u and v, nor on the line.
pub fn apart(q: &[f64], u: usize, v: usize, a: usize, b: usize) -> bool
    requires { Within q.now u × Within q.now v × Within q.now a × Within q.now b }
    ensures { let p = point_at q.now in result ≡ not (0·0 ≼ side (p u) (p v) (p a) ⊗ side (p u) (p v) (p b)) }
{
    !(side(q, u, v, a) * side(q, u, v, b) >= 0.0)
}

// The point x y lies strictly inside the triangle a b c, wound either way.
pub fn point_strictly_inside(q: &[f64], a: usize, b: usize, c: usize, x: f64, y: f64) -> bool
    requires { Within q.now a × Within q.now b × Within q.now c }
    ensures { let p = point_at q.now in result ≡ point_strictly_inside (p a) (p b) (p c) (flat x y) }
{
    let sa = at(q, a);
    let sb = at(q, b);
    let sc = at(q, c);
    let p = Spot { x, y };
    let d = cross_of(sa, sb, p);
    let e = cross_of(sb, sc, p);
    let f = cross_of(sc, sa, p);
    if all_positive(d, e, f) {
        return true;
    }
    all_negative(d, e, f)
}

// The node v is not strictly on the left of one side of the quad a b c d and strictly on the right of another.
pub fn inside_quad(q: &[f64], a: usize, b: usize, c: usize, d: usize, v: usize) -> bool
    requires { Within q.now a × Within q.now b × Within q.now c × Within q.now d × Within q.now v }
    ensures { let p = point_at q.now in result ≡ inside_quad (p a) (p b) (p c) (p d) (p v) }
{
    let ab = cross(q, a, b, v);
    let bc = cross(q, b, c, v);
    let cd = cross(q, c, d, v);
    let da = cross(q, d, a, v);
    if any_positive(ab, bc, cd, da) {
        return !any_negative(ab, bc, cd, da);
    }
    true
}
