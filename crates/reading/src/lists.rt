// The input's lists, read line by line into lent slices.
ghost use Rattle.std.specs.Prelude.{◌≡◌, ◌*◌, ◌≤◌, length, map, drop, MatchOption};
ghost use Rattle.std.proofs.Math.Option.{none};
ghost use Rattle.definition.specs.Lists.{rows};
ghost use Rattle.definition.specs.Text.{three, times};
ghost use Rattle.reading.specs.Found.{taken, list_of};

use crate::values;
use crate::values::{Listed, ended};

// A line of three values: a triangle's nodes, or a point's bits.
fn line<T: Listed>(s: &[u8]) -> Option<([T; 3], &[u8])>
    ensures { MatchOption result (none ≡ three T.reader s.now) (λ t. taken (map T.number_of t.0) t.1.now ≡ three T.reader s.now) }
{
    let (a, p) = ended(T::read(s), b' ')?;
    let (b, q) = ended(T::read(p), b' ')?;
    let (c, rest) = ended(T::read(q), b'\n')?;
    Some(([a, b, c], rest))
}

// n lines.
// Kept (6): `past` speaks of what lies past them in the lent slice, which a slice as long as they are doesn't have.
fn lines<'a, T: Listed>(s: &'a [u8], n: usize, into: &mut [T]) -> Option<&'a [u8]>
    requires { 3 * n ≤ length into.old }
    ensures reads { MatchOption result (none ≡ times n (three T.reader) s.now) (λ rest. taken (rows 3 n (map T.number_of into.new)) rest.now ≡ times n (three T.reader) s.now) }
    ensures past { drop (3 * n) into.new ≡ drop (3 * n) into.old }
{
    let mut rest = s;
    for i in 0..n {
        let (row, after) = line::<T>(rest)?;
        let k = 3 * i;
        into[k..k + 3].copy_from_slice(&row);
        rest = after;
    }
    Some(rest)
}

// A list: its line of names, and n lines.
// Kept (6): as above, `past` speaks of what lies past them.
pub fn list<'a, T: Listed>(s: &'a [u8], names: &[u8], n: usize, into: &mut [T]) -> Option<&'a [u8]>
    requires { 3 * n ≤ length into.old }
    ensures reads { MatchOption result (none ≡ list_of names.now T.reader n s.now) (λ rest. taken (rows 3 n (map T.number_of into.new)) rest.now ≡ list_of names.now T.reader n s.now) }
    ensures past { drop (3 * n) into.new ≡ drop (3 * n) into.old }
{
    let rows = values::expect(s, names)?;
    lines(rows, n, into)
}
