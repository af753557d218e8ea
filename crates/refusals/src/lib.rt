// The refusals that open a call of run_front: they read the points, the triangles and the joints, and touch nothing.
#![tactic(auto)]

ghost use Rattle.std.specs.Prelude.{◌≡◌, false, not, ◌*◌, ◌≤◌, Float, length};
ghost use Rattle.definition.specs.Call.{Lent, over_limit, bad_size, bad_stop, ranges, good_quality, bad_quality, too_short, unknown_node, twice, repeated_node, outside, far_point, grid_node, bad_grid, bad_joint, bad_joints, given_points, most_coordinate};
ghost use Rattle.definition.specs.Cells.{new_tri, key};
ghost use Rattle.definition.specs.Floats.{◌≼◌, abs};
ghost use Rattle.definition.specs.Lists.{all};
ghost use Rattle.exact.specs.GridTest.{is_whole_part};
ghost use Rattle.definition.specs.Numbers.{base};
ghost use Rattle.rules.specs.Settings.{quality_of};
ghost use Rattle.refusals.specs.Numbers.{number_or_0};
ghost use Rattle.refusals.specs.Stated.{asked, asked_for, Lends, spot};
ghost use Rattle.refusals.specs.Passed.{Limited};
ghost use Rattle.refusals.specs.Refusals.{first_refusal};

use rules::{MOST_PAIRS, Quality, standard_quality};
use words::wide;

mod named;

pub use named::{Refusal, number_or_0};

// Triangles, and given points, that a call may state.
const MOST_GIVEN: usize = 4096;

// Point capacity that a call may state.
const MOST_CAPACITY: usize = 8192;

// Slots that a call may state.
const MOST_SLOTS: usize = 16384;

// The least size that is not zero, 1/64.
const LEAST_SIZE: f64 = 0.015625;

// The greatest size.
const MOST_SIZE: f64 = 8.0;

// The ranges of a quality set: least and most of the scaled Jacobian,
// of the cosine and of the side factors; the most pairs.
const LEAST_JACOBIAN: f64 = 0.0;

const MOST_JACOBIAN: f64 = 1.0;

const LEAST_COSINE: f64 = 0.5;

const MOST_COSINE: f64 = 0.99;

const LEAST_FACTOR: f64 = 0.1;

const MOST_FACTOR: f64 = 4.0;

// The greatest magnitude of an x or y.
const MOST_COORDINATE: f64 = 8.0;

// The grid's lines to a unit.
const GRID: f64 = 1024.0;

// Joints that a call may state.
const MOST_JOINTS: usize = 256;

// u32 of a quad.
const QUAD_WORDS: usize = 8;

// u32 of work for a slot and for a point of capacity, and f64 of work for a slot.
const SLOT_WORDS: usize = 64;

const POINT_WORDS: usize = 8;

const SLOT_FLOATS: usize = 4;

// The numbers that the caller states.
#[derive(Clone, Copy)]
pub struct Stated {
    pub given: usize,
    pub capacity: usize,
    pub count: usize,
    pub slots: usize,
    pub joints: usize,
    pub size: f64,
    pub stop: u32,
    pub quality: Quality,
    pub grid: bool,
}

// The stated numbers with the standard set, no joints and no grid.
pub fn standard(
    given: usize,
    capacity: usize,
    count: usize,
    slots: usize,
    size: f64,
    stop: u32,
) -> Stated
    ensures { asked result ≡ asked_for given capacity count slots 0 size stop base false }
{
    let quality = standard_quality();
    Stated {
        given,
        capacity,
        count,
        slots,
        joints: 0,
        size,
        stop,
        quality,
        grid: false,
    }
}

// The lengths of the lent slices that are measured and not read: `out` of the triangles out, `floats` of the f64 work.
#[derive(Clone, Copy)]
pub struct Room {
    pub quads: usize,
    pub out: usize,
    pub components: usize,
    pub work: usize,
    pub floats: usize,
}

// ---- the caller's numbers

// 1: too many triangles or given points, or a capacity over its limit.
fn over_limit(a: Stated) -> bool
    ensures { result ≡ over_limit (asked a) }
{
    a.count > MOST_GIVEN
        || a.given > MOST_GIVEN
        || a.capacity > MOST_CAPACITY
        || a.slots > MOST_SLOTS
}

// 2: a size that is no zero of either sign and does not lie between its limits.
fn bad_size(a: Stated) -> bool
    ensures { result ≡ bad_size (asked a) }
{
    !(a.size == 0.0 || LEAST_SIZE <= a.size && a.size <= MOST_SIZE)
}

// 3: a stop rule that is neither 0 nor 1.
fn bad_stop(a: Stated) -> bool
    ensures { result ≡ bad_stop (asked a) }
{
    a.stop > 1
}

// The number lies from low to high, both included; a NaN does not.
pub fn ranges(low: f64, high: f64, c: f64) -> bool
    ensures { result ≡ ranges low high c }
{
    low <= c && c <= high
}

// Every number of the set is in its range, and the low side factor is not above the high one.
fn good_quality(y: Quality) -> bool
    ensures { result ≡ good_quality (quality_of y) }
{
    if !ranges(LEAST_JACOBIAN, MOST_JACOBIAN, y.least_jacobian) {
        return false;
    }
    if !ranges(LEAST_COSINE, MOST_COSINE, y.largest_cosine) {
        return false;
    }
    if !ranges(LEAST_FACTOR, MOST_FACTOR, y.side_low) {
        return false;
    }
    if !ranges(LEAST_FACTOR, MOST_FACTOR, y.side_high) {
        return false;
    }
    if !(y.side_low <= y.side_high) {
        return false;
    }
    if y.pairs < 1 {
        return false;
    }
    y.pairs <= MOST_PAIRS
}

// 14: a quality set out of its ranges.
fn bad_quality(a: Stated) -> bool
    ensures { result ≡ bad_quality (asked a) }
{
    !good_quality(a.quality)
}

// ---- the lender's slices

// 4: a slice shorter than the stated numbers need, less capacity than given points, or fewer slots than triangles.
// The joints stated have no limit here: half the length is compared.
fn too_short(points: &[f64], triangles: &[u32], joints: &[u32], a: Stated, n: Room) -> bool
    requires { Limited (asked a) }
    ensures { (l : Lent) → Lends l points.now triangles.now joints.now n → result ≡ too_short (asked a) l }
{
    let capacity = a.capacity;
    let count = a.count;
    let slots = a.slots;
    if points.len() < 3 * capacity {
        return true;
    }
    if triangles.len() < 3 * count {
        return true;
    }
    if joints.len() / 2 < a.joints {
        return true;
    }
    if n.quads < QUAD_WORDS * slots {
        return true;
    }
    if n.out < 3 * slots {
        return true;
    }
    if n.components < slots {
        return true;
    }
    if n.work < SLOT_WORDS * slots + POINT_WORDS * capacity {
        return true;
    }
    if n.floats < SLOT_FLOATS * slots {
        return true;
    }
    if capacity < a.given {
        return true;
    }
    if slots < count {
        return true;
    }
    false
}

// ---- the mesh

// 5: a triangle names a node that is not among the given points.
pub fn unknown_node(triangles: &[u32], a: Stated) -> bool
    requires { 3 * a.count ≤ length triangles.now }
    ensures { (l : Lent) → l.triangles ≡ triangles.now → result ≡ unknown_node (asked a) l }
{
    let given = a.given;
    let n = 3 * a.count;
    for i in 0..n {
        if wide(triangles[i]) >= given {
            return true;
        }
    }
    false
}

// Two of the three nodes are one.
fn twice(n0: u32, n1: u32, n2: u32) -> bool
    ensures { result ≡ twice (new_tri n0 n1 n2) }
{
    n0 == n1 || n1 == n2 || n0 == n2
}

// 6: a triangle names a node twice.
pub fn repeated_node(triangles: &[u32], a: Stated) -> bool
    requires { 3 * a.count ≤ length triangles.now }
    ensures { (l : Lent) → l.triangles ≡ triangles.now → result ≡ repeated_node (asked a) l }
{
    let count = a.count;
    for i in 0..count {
        if twice(triangles[3 * i], triangles[3 * i + 1], triangles[3 * i + 2]) {
            return true;
        }
    }
    false
}

// The number is finite and not beyond the limit.
fn within(x: f64) -> bool
    ensures { result ≡ (abs x ≼ most_coordinate) }
{
    -MOST_COORDINATE <= x && x <= MOST_COORDINATE
}

// An x or y is not finite or is beyond the limit.
fn outside(x: f64, y: f64) -> bool
    ensures { (z : Float) → result ≡ outside (spot x y z) }
{
    !(within(x) && within(y))
}

// 7: a given point is outside.
pub fn far_point(points: &[f64], a: Stated) -> bool
    requires { 3 * a.given ≤ length points.now }
    ensures { (l : Lent) → l.points ≡ points.now → result ≡ far_point (asked a) l }
{
    let given = a.given;
    for i in 0..given {
        if outside(points[3 * i], points[3 * i + 1]) {
            return true;
        }
    }
    false
}

// 1024 times x is its own floor.
fn whole_part(x: f64) -> bool
    ensures { result ≡ is_whole_part x }
{
    let y = x * GRID;
    root::floor(y) == y
}

// Kept (2): one function of this and `outside`, with its test handed in, is no plainer than a line for each.
// An x or y within the limit that is no whole number of 1/1024.
fn off_grid(x: f64, y: f64) -> bool
    requires { (z : Float) → outside (spot x y z) ≡ false }
    ensures { (z : Float) → result ≡ not (grid_node (spot x y z)) }
{
    !(whole_part(x) && whole_part(y))
}

// Kept (2): one loop for this and `far_point`, with its test handed in, is no plainer, for this test has a condition.
// Some given point is off the grid, all being within the limit.
fn point_off_grid(points: &[f64], a: Stated) -> bool
    requires { (3 * a.given ≤ length points.now) × ((l : Lent) → l.points ≡ points.now → far_point (asked a) l ≡ false) }
    ensures { (l : Lent) → l.points ≡ points.now → result ≡ not (all grid_node (given_points (asked a) l)) }
{
    let given = a.given;
    for i in 0..given {
        if off_grid(points[3 * i], points[3 * i + 1]) {
            return true;
        }
    }
    false
}

// 15: in the grid profile, a size that is no zero or a given point off the grid.
fn bad_grid(points: &[f64], a: Stated) -> bool
    requires { (3 * a.given ≤ length points.now) × ((l : Lent) → l.points ≡ points.now → far_point (asked a) l ≡ false) }
    ensures { (l : Lent) → l.points ≡ points.now → result ≡ bad_grid (asked a) l }
{
    a.grid && (a.size != 0.0 || point_off_grid(points, a))
}

// The two nodes are one, or one of them is not among the given points.
pub fn bad_joint(u: u32, v: u32, given: usize) -> bool
    ensures { result ≡ bad_joint given (key u v) }
{
    u == v || wide(u) >= given || wide(v) >= given
}

// 13: too many joints, or one of them is bad.
pub fn bad_joints(joints: &[u32], a: Stated) -> bool
    requires { 2 * a.joints ≤ length joints.now }
    ensures { (l : Lent) → l.joints ≡ joints.now → result ≡ bad_joints (asked a) l }
{
    let n = a.joints;
    let given = a.given;
    if n > MOST_JOINTS {
        return true;
    }
    for i in 0..n {
        if bad_joint(joints[2 * i], joints[2 * i + 1], given) {
            return true;
        }
    }
    false
}

// ---- the answer

// The first refusal whose condition holds, if one does.
pub fn refusal(
    points: &[f64],
    triangles: &[u32],
    joints: &[u32],
    a: Stated,
    n: Room,
) -> Result<(), Refusal>
    ensures { (l : Lent) → Lends l points.now triangles.now joints.now n → number_or_0 result ≡ first_refusal (asked a) l }
{
    if over_limit(a) {
        return Err(Refusal::OverLimit);
    }
    if bad_size(a) {
        return Err(Refusal::BadSize);
    }
    if bad_stop(a) {
        return Err(Refusal::BadStop);
    }
    if bad_quality(a) {
        return Err(Refusal::BadQuality);
    }
    if too_short(points, triangles, joints, a, n) {
        return Err(Refusal::TooShort);
    }
    if unknown_node(triangles, a) {
        return Err(Refusal::UnknownNode);
    }
    if repeated_node(triangles, a) {
        return Err(Refusal::RepeatedNode);
    }
    if far_point(points, a) {
        return Err(Refusal::FarPoint);
    }
    if bad_grid(points, a) {
        return Err(Refusal::OffGrid);
    }
    if bad_joints(joints, a) {
        return Err(Refusal::BadJoint);
    }
    Ok(())
}
