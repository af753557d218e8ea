// Circular lists of codes 0 .. n in a part of a slice: next[] of n codes stands at b, prev[] at b + n.
#![tactic(auto)]

ghost use Rattle.rings.specs.Rings.{nx, CanRead, CanOpen, CanLink, CanUnlink, OpenedFrom, LinkedTo, UnlinkedFrom};
ghost use Rattle.std.specs.Prelude.{◌≡◌};

use words::wide;

// The code after c in its ring.
pub fn next(w: &[u32], b: usize, n: usize, c: usize) -> usize
    requires { CanRead w.now b n c }
    ensures { result ≡ nx w.now b c }
{
    wide(w[b + c])
}

// Each code from t on becomes the sentinel of an empty ring.
pub fn open(w: &mut [u32], b: usize, n: usize, t: usize)
    requires { CanOpen w.old b n t }
    ensures { OpenedFrom w.old w.new b n t }
{
    for c in t..n {
        w[b + c] = c as u32;
        w[b + n + c] = c as u32;
    }
}

// The code c, which stands in no ring, comes in before the sentinel t.
pub fn link(w: &mut [u32], b: usize, n: usize, c: usize, t: usize)
    requires { CanLink w.old b n c t }
    ensures { LinkedTo w.old w.new b n c t }
{
    let q0 = w[b + n + t];
    let q = q0 as usize;
    w[b + q] = c as u32;
    w[b + c] = t as u32;
    w[b + n + c] = q0;
    w[b + n + t] = c as u32;
}

// The code c is taken out of its ring.
pub fn unlink(w: &mut [u32], b: usize, n: usize, c: usize)
    requires { CanUnlink w.old b n c }
    ensures { UnlinkedFrom w.old w.new b n c }
{
    let x0 = w[b + c];
    let q0 = w[b + n + c];
    let x = x0 as usize;
    let q = q0 as usize;
    w[b + q] = x0;
    w[b + n + x] = q0;
}
