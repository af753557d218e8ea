// The filing order of two meshes that passed their tests.
ghost use Rattle.definition.specs.Call.{first_tris};
ghost use Rattle.filing.specs.Filing.{order_lists, order_tris, filed_tris, filing_order};
ghost use Rattle.filing.specs.Places.{Fileable, FiledPlaces};
ghost use Rattle.filing.specs.Promise.{read, Readable, Ordered};

use crate::orders::{order_keys, order_points};
use crate::places::put_triangles;
use sorting::sort_places;
use std::cmp::Ordering;

// A mesh that is handed in: its slices, and how many points and triangles they hold at their front.
#[derive(Clone, Copy)]
pub struct Given<'a> {
    pub points: &'a [f64],
    pub given: usize,
    pub triangles: &'a [u32],
    pub count: usize,
}

// The first n places get the first n triangles, each from its smallest node on, ascending.
fn file_triangles(triangles: &[u32], w: &mut [u32], n: usize)
    requires { Fileable triangles.now w.old n }
    ensures { FiledPlaces triangles.now w.old w.new n }
{
    put_triangles(triangles, w, n);
    sort_places(w, n);
}

// The order of the first n triangles of two meshes, each list sorted.
fn order_triangles(
    first: &[u32],
    v: &mut [u32],
    second: &[u32],
    w: &mut [u32],
    n: usize,
) -> Ordering
    requires { Fileable first.now v.old n × Fileable second.now w.old n }
    ensures { Ordered
        (order_lists order_tris (filed_tris (first_tris n first.now)) (filed_tris (first_tris n second.now)))
        result v.old v.new w.old w.new }
{
    file_triangles(first, v, n);
    file_triangles(second, w, n);
    order_keys(v, w, n)
}

// The order of two meshes: by point count, by points, by triangle count, by triangles.
pub fn order_meshes(first: Given, v: &mut [u32], second: Given, w: &mut [u32]) -> Ordering
    requires { Readable first.given first.count first.points.now first.triangles.now v.old
        × Readable second.given second.count second.points.now second.triangles.now w.old }
    ensures { Ordered
        (filing_order
        (read first.entry.given first.entry.count first.entry.points.now first.entry.triangles.now)
        (read second.entry.given second.entry.count second.entry.points.now second.entry.triangles.now))
        result v.old v.new w.old w.new }
{
    if first.given != second.given {
        return first.given.cmp(&second.given);
    }
    let o = order_points(first.points, second.points, first.given);
    if o.is_ne() {
        return o;
    }
    if first.count != second.count {
        return first.count.cmp(&second.count);
    }
    order_triangles(first.triangles, v, second.triangles, w, first.count)
}
