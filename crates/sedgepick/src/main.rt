// Reads a mesh as text from standard input, and writes what run_front makes of it, or the number of a refusal.
#![tactic(auto)]

ghost use Rattle.std.specs.Prelude.{◌≤◌, length, IfOk};

use replies::WRITTEN;
use std::io;
use std::io::{Read, Write};

// The bytes that are read: one more than a text may have, so that a longer one is seen to be longer.
const READ: usize = 8193;

// Reads until the buffer is full or the input ends; how many bytes were read.
fn read_full<R: Read>(input: &mut R, buf: &mut [u8]) -> io::Result<usize>
    ensures { IfOk result (λ n. n ≤ length buf.new) }
{
    let mut done = 0;
    // Kept (3): a read says how many bytes it brought, so no range counts them, and std's `read_to_end` takes heap.
    while done < buf.len() {
        let n = input.read(&mut buf[done..])?;
        if n == 0 {
            break;
        }
        done += n;
    }
    Ok(done)
}

fn main(rt: HostRuntime) -> io::Result<()> {
    let mut text = [0u8; READ];
    let n = read_full(&mut rt.stdin(), &mut text)?;
    let mut out = [0u8; WRITTEN];
    let m = replies::reply(&text[..n], &mut out);
    rt.stdout().write_all(&out[..m])
}
