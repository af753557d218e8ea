// Replies to stored texts, and writes how many are the Rust's answers.
#![tactic(auto)]

mod cases;
mod compare;

use std::io;

fn main(rt: HostRuntime) -> io::Result<()> {
    let agreed = cases::agreed();
    println!(rt; "{agreed}")
}
