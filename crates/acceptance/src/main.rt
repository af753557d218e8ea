// Meshes every list of one to three different triangles on 3, 4 or 5 points in many settings,
// and writes how many lists, in how many runs, have what the Rust returns.
#![tactic(auto)]

mod answers;
mod lists;
mod positions;
mod runs;
mod stored;

use std::io;

fn main(rt: HostRuntime) -> io::Result<()> {
    let three = lists::meshed(3, &stored::THREE);
    let four = lists::meshed(4, &stored::FOUR);
    let five = lists::meshed(5, &stored::FIVE);
    let made = three.made + four.made + five.made;
    let agreed = three.agreed + four.agreed + five.agreed;
    let runs_made = made * runs::SETTINGS as u64;
    let runs_agreed = agreed * runs::SETTINGS as u64;
    println!(rt; "lists runs agreed")?;
    println!(rt; "{made} {runs_made} {runs_agreed}")
}
