// Lines of numbers: values parted by a space, then a newline.
ghost use Rattle.std.specs.Prelude.{◌+◌, ◌*◌, ◌<◌, ◌≤◌, length, map};
ghost use Rattle.definition.specs.Lists.{rows};
ghost use Rattle.definition.specs.Text.{line_of, lines_of};
ghost use Rattle.writing.specs.Put.{Within};

use crate::digits::Shown;

// The values of a row; the last one ends the line.
fn line<T: Shown>(out: &mut [u8], at: usize, row: &[T]) -> usize
    requires { (0 < length row.now) × (at + T.most * length row.now ≤ length out.old) }
    ensures { Within out.old out.new at (line_of T.text (map T.number_of row.now)) result (T.most * length row.now) }
{
    let last = row.len() - 1;
    let mut p = at;
    for n in &row[..last] {
        p = n.put(out, p, b' ');
    }
    row[last].put(out, p, b'\n')
}

// The first n rows of w values, a line each.
// Kept (6): what is lent is longer than what is shown of it, and a row has its own length.
pub fn table<T: Shown>(out: &mut [u8], at: usize, xs: &[T], w: usize, n: usize) -> usize
    requires { (0 < w) × (w * n ≤ length xs.now) × (at + T.most * (w * n) ≤ length out.old) }
    ensures { Within out.old out.new at (lines_of T.text (rows w n (map T.number_of xs.now))) result (T.most * (w * n)) }
{
    let mut p = at;
    for i in 0..n {
        let from = w * i;
        p = line(out, p, &xs[from..from + w]);
    }
    p
}
