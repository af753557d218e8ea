// The filing order of two meshes, in lent memory.
#![tactic(auto)]

mod conditions;
mod meshes;
mod orders;
mod places;

ghost use Rattle.std.specs.Prelude.{◌≡◌};
ghost use Rattle.filing.specs.Filing.{call};
ghost use Rattle.filing.specs.Promise.{mesh, returned};

use crate::conditions::check;
use crate::meshes::{Given, order_meshes};
use cells::clear::clear;
use refusals::Refusal;
use std::cmp::Ordering;

// How the first mesh stands to the second in the filing order.
// No precondition: the definition's call says what comes back and what both work slices hold then.
pub fn filing_order(
    first_points: &[f64],
    first_given: usize,
    first_triangles: &[u32],
    first_count: usize,
    first_work: &mut [u32],
    second_points: &[f64],
    second_given: usize,
    second_triangles: &[u32],
    second_count: usize,
    second_work: &mut [u32],
) -> Result<Ordering, Refusal>
    ensures { returned result first_work.new second_work.new
        ≡ call
        (mesh first_given first_count first_points.now first_triangles.now first_work.old)
        (mesh second_given second_count second_points.now second_triangles.now second_work.old) }
{
    check(
        first_points,
        first_given,
        first_triangles,
        first_count,
        first_work,
    )?;
    check(
        second_points,
        second_given,
        second_triangles,
        second_count,
        second_work,
    )?;
    let first = Given {
        points: first_points,
        given: first_given,
        triangles: first_triangles,
        count: first_count,
    };
    let second = Given {
        points: second_points,
        given: second_given,
        triangles: second_triangles,
        count: second_count,
    };
    let order = order_meshes(first, first_work, second, second_work);
    clear(first_work, 0);
    clear(second_work, 0);
    Ok(order)
}
