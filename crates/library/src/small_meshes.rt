// Every small mesh for programs in C and Rust.
ghost use Rattle.small.specs.Lent.{Put};

use small::lent::put_small_mesh;

// The list at a place of the order, in a slice of the caller's.
// A refusal's number is returned, and 0 where there is an answer.
#[unsafe(no_mangle)]
pub extern "C" fn sedgepick_small_mesh(points: u32, place: usize, list: &mut [u32]) -> usize
    ensures { Put points place list.old result list.new }
{
    match put_small_mesh(points, place, list) {
        Ok(()) => 0,
        Err(refusal) => refusal.into(),
    }
}
