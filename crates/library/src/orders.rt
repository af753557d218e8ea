// The filing order of two meshes, its answer as one number.
ghost use Rattle.std.specs.Prelude.{◌≡◌};
ghost use Rattle.filing.specs.Filing.{call};
ghost use Rattle.filing.specs.Promise.{answered, mesh};
ghost use Rattle.library.specs.Filed.{order_number, number, FiledAs};

use filing::filing_order;
use refusals::Refusal;
use std::cmp::Ordering;

// Kept (1): it is made here for C alone.
// Kept (2): alike by chance, other functions map other kinds to other numbers.
// Kept (4): std's `Ordering` has other numbers, and a From for it would need a type of this crate.
// The order as a number that no refusal has.
fn order_number(o: Ordering) -> usize
    ensures { result ≡ order_number o }
{
    match o {
        Ordering::Less => 100,
        Ordering::Equal => 101,
        Ordering::Greater => 102,
    }
}

fn number(answer: Result<Ordering, Refusal>) -> usize
    ensures { result ≡ number (answered answer) }
{
    match answer {
        Ok(order) => order_number(order),
        Err(refusal) => refusal.into(),
    }
}

// Kept (1): C takes the answer as a number.
// filing_order.
// The number of the refusal is returned; or 100, 101 or 102 where the first mesh stands before the second,
// is the same, or stands after it.
#[unsafe(no_mangle)]
pub extern "C" fn sedgepick_filing_order(
    first_points: &[f64],
    first_triangles: &[u32],
    first_work: &mut [u32],
    first_given: usize,
    first_count: usize,
    second_points: &[f64],
    second_triangles: &[u32],
    second_work: &mut [u32],
    second_given: usize,
    second_count: usize,
) -> usize
    ensures { FiledAs
        (call
        (mesh first_given first_count first_points.now first_triangles.now first_work.old)
        (mesh second_given second_count second_points.now second_triangles.now second_work.old))
        result
        first_work.new
        second_work.new }
{
    let answer = filing_order(
        first_points,
        first_given,
        first_triangles,
        first_count,
        first_work,
        second_points,
        second_given,
        second_triangles,
        second_count,
        second_work,
    );
    number(answer)
}
