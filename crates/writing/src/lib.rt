// The program's answer, written as text.
#![tactic(auto)]

mod digits;
mod lines;

ghost use Rattle.std.specs.Prelude.{◌++◌, ◌≡◌, ◌+◌, ◌-◌, ◌*◌, ◌<◌, ◌≤◌, length};
ghost use Rattle.definition.specs.Lists.{rows};
ghost use Rattle.definition.specs.Counts as defined;
ghost use Rattle.definition.specs.Text.{bytes, show, show_bits, line_of, lines_of, listed, points_between, show_refusal, show_lists};
ghost use Rattle.writing.specs.Put.{Within};
ghost use Rattle.writing.specs.Answer.{most_written, columns, lengths_of, lengths_listed, shown, Few, Held, Answered};

use crate::digits::Shown;

// The counts of a finished run that are written.
#[derive(Clone, Copy)]
pub struct Counts {
    pub front_empty: u32,
    pub attempts: u32,
    pub placement: u32,
    pub invalid_quad: u32,
    pub recovery: u32,
    pub region: u32,
    pub odd_region: u32,
    pub mismatch_insertions: u32,
    pub limit: u32,
}

// The lengths of the lists of a finished run that are written.
#[derive(Clone, Copy)]
pub struct Lengths {
    pub quads: usize,
    pub triangles: usize,
    pub points: usize,
    pub components: usize,
}

// A line of names, then the first n rows of w numbers.
// Kept (6): what is lent is longer than what is shown of it.
fn named(out: &mut [u8], at: usize, names: &[u8], xs: &[u32], w: usize, n: usize) -> usize
    requires { (0 < w) × (w * n ≤ length xs.now) × (at + length names.now + 11 * (w * n) ≤ length out.old) }
    ensures { Within out.old out.new at (names.now ++ lines_of show (rows w n xs.now)) result (length names.now + 11 * (w * n)) }
{
    let p = digits::fixed(out, at, names);
    lines::table(out, p, xs, w, n)
}

// The counts are written at the front of `out`.
fn counted(out: &mut [u8], c: Counts) -> usize
    requires { 196 ≤ length out.old }
    ensures { Within out.old out.new 0 (bytes "front_empty attempts placement invalid_quad recovery region odd_region mismatch_insertions limit\n" ++ line_of show (columns c)) result 196 }
{
    let row = [
        c.front_empty,
        c.attempts,
        c.placement,
        c.invalid_quad,
        c.recovery,
        c.region,
        c.odd_region,
        c.mismatch_insertions,
        c.limit,
    ];
    named(
        out,
        0,
        b"front_empty attempts placement invalid_quad recovery region odd_region mismatch_insertions limit\n",
        &row,
        9,
        1,
    )
}

// The lengths are written.
fn sized(out: &mut [u8], at: usize, n: Lengths) -> usize
    requires { Few n × (at + 78 ≤ length out.old) }
    ensures { Within out.old out.new at (bytes "quads triangles points components\n" ++ line_of show (lengths_listed (lengths_of n))) result 78 }
{
    let row = [
        n.quads as u32,
        n.triangles as u32,
        n.points as u32,
        n.components as u32,
    ];
    named(out, at, b"quads triangles points components\n", &row, 4, 1)
}

// The points are written: k given ones by the bits that were read, and the others up to n.
// Kept (6): what is lent is longer than what is shown of it.
fn places(out: &mut [u8], at: usize, bits: &[u64], k: usize, points: &[f64], n: usize) -> usize
    requires { (k ≤ n) × (3 * k ≤ length bits.now) × (3 * n ≤ length points.now) × (at + 6 + 51 * n ≤ length out.old) }
    ensures { Within out.old out.new at (bytes "x y z\n" ++ lines_of show_bits (rows 3 k bits.now ++ points_between k n points.now)) result (6 + 51 * n) }
{
    let p = digits::fixed(out, at, b"x y z\n");
    let q = lines::table(out, p, bits, 3, k);
    lines::table(out, q, &points[3 * k..], 3, n - k)
}

// The answer of a finished run with these counts, whose `given` points are written by their bits.
pub fn answer(
    out: &mut [u8],
    c: Counts,
    n: Lengths,
    bits: &[u64],
    given: usize,
    points: &[f64],
    quads: &[u32],
    triangles: &[u32],
    components: &[u32],
) -> usize
    requires { Few n × Held n given bits.now points.now quads.now triangles.now components.now × (most_written ≤ length out.old) }
    ensures { (d : defined.Counts) → listed d ≡ columns c → Answered out.old out.new (show_lists (rows 3 given bits.now) d (lengths_of n) (shown points.now quads.now triangles.now components.now)) result }
{
    let nq = n.quads;
    let nt = n.triangles;
    let np = n.points;
    let nc = n.components;
    let a = counted(out, c);
    let b = sized(out, a, n);
    let d = named(out, b, b"n0 n1 n2 n3 u v round replaced\n", quads, 8, nq);
    let e = named(out, d, b"n0 n1 n2\n", triangles, 3, nt);
    let f = places(out, e, bits, given, points, np);
    named(out, f, b"size\n", components, 1, nc)
}

// A refusal is written.
pub fn refusal(out: &mut [u8], k: u32) -> usize
    requires { 19 ≤ length out.old }
    ensures { Answered out.old out.new (show_refusal k) result }
{
    let p = digits::fixed(out, 0, b"refused\n");
    k.put(out, p, b'\n')
}
