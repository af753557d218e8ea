// A reply against a stored answer.
ghost use Rattle.std.specs.Prelude.{◌≡◌, ◌≤◌};
ghost use Rattle.replay.specs.Agreeing.{agrees};

use replies::{WRITTEN, reply};

// 1 where the reply to the text is the answer, otherwise 0.
// Kept (1): the numbers are added up, and a bool would have to be turned into one at each of the forty calls.
pub fn agrees(text: &[u8], answer: &[u8]) -> u64
    ensures upper_bound { result ≤ 1 }
    ensures value { result ≡ agrees text.now answer.now }
{
    let mut out = [0u8; WRITTEN];
    let n = reply(text, &mut out);
    if &out[..n] == answer {
        return 1;
    }
    0
}
