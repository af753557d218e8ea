// The program's answer to a text: the text is read, the mesh made, and what comes back written.
#![tactic(auto)]

mod floats;

ghost use Rattle.std.proofs.Math.Option.{some};
ghost use Rattle.std.specs.Prelude.{◌≡◌, ◌≤◌, length, Ok};
ghost use Rattle.definition.specs.Lists.{rows};
ghost use Rattle.definition.specs.Call.{Returned};
ghost use Rattle.definition.specs.Text.{listed, show_returned, reply};
ghost use Rattle.reading.specs.Whole.{input_of, answer};
ghost use Rattle.writing.specs.Answer.{most_written, columns, Answered};
ghost use Rattle.mesher.specs.Promise.{answered, counts_in};
ghost use Rattle.replies.specs.Tells.{WasRead, Countable, Writable, Long, Left};

use mesher::Answer;
use reading::found::Header;
use refusals::Refusal;
use words::float_of;
use writing::{Counts, Lengths};

// The bytes that a reply fits in.
pub const WRITTEN: usize = 26624;

// Points that the program lends.
const POINTS: usize = 96;

// Slots that the program lends.
const SLOTS: usize = 160;

// The refusal of a text that is not in its form.
const NOT_IN_FORM: u32 = 10;

// The counts to be written.
// Kept (4): a From takes no `requires`, and `Countable` says that the counts fit 32 bits.
fn counts_of(a: Answer) -> Counts
    requires { Countable (answered (Ok a)) }
    ensures { listed (counts_in (answered (Ok a))) ≡ columns result }
{
    Counts {
        front_empty: a.front_empty as u32,
        attempts: a.attempts as u32,
        placement: a.placement as u32,
        invalid_quad: a.invalid_quad as u32,
        recovery: a.recovery as u32,
        region: a.region as u32,
        odd_region: a.odd_region as u32,
        mismatch_insertions: a.mismatch_insertions as u32,
        limit: a.limit as u32,
    }
}

// What a call returned, as text: its refusal, or its counts and lists with the `given`
// points by the bits that were read.
// Kept (4): `Lengths`, `Answer` and From are other crates', so no From can stand here.
fn told(
    out: &mut [u8],
    a: Result<Answer, Refusal>,
    bits: &[u64],
    given: usize,
    points: &[f64],
    quads: &[u32],
    triangles: &[u32],
    components: &[u32],
) -> usize
    requires { Writable (answered a) given × Long given bits.now points.now quads.now triangles.now components.now out.old }
    ensures { (x : Returned) → Left x (answered a) points.now quads.now triangles.now components.now → Answered out.old out.new (show_returned (rows 3 given bits.now) x) result }
{
    let a = match a {
        Ok(a) => a,
        Err(k) => return writing::refusal(out, k.into()),
    };
    let c = counts_of(a);
    let n = Lengths {
        quads: a.quads,
        triangles: a.triangles,
        points: a.points,
        components: a.components,
    };
    writing::answer(out, c, n, bits, given, points, quads, triangles, components)
}

// The reply to an input that was read: memory for 96 points and 160 slots is lent to
// the call, all zeros past the input.
fn meshed(h: Header, tris: &[u32], bits: &[u64], out: &mut [u8]) -> usize
    requires { WasRead h tris.now bits.now × (most_written ≤ length out.old) }
    ensures { Answered out.old out.new (answer (some (input_of h tris.now bits.now))) result }
{
    let given = h.points;
    let count = h.triangles;
    let mut points = [0.0f64; 288];
    floats::fill(bits, 3 * given, &mut points);
    let size = float_of(h.size);
    let mut quads = [0u32; 1280];
    let mut triangles = [0u32; 480];
    let mut components = [0u32; 160];
    let mut work = [0u32; 11008];
    let mut float_work = [0.0f64; 640];
    let end = 3 * count;
    let none = [0u32; 0];
    let mut no_trace = [0u32; 0];
    let stated = refusals::standard(given, POINTS, count, SLOTS, size, h.stop);
    let a = mesher::run_front(
        &mut points,
        &tris[..end],
        &none,
        &mut quads,
        &mut triangles,
        &mut components,
        &mut work,
        &mut float_work,
        &mut no_trace,
        stated,
    );
    told(
        out,
        a,
        bits,
        given,
        &points,
        &quads,
        &triangles,
        &components,
    )
}

// The reply to a text, at the front of `out`; how many bytes it has.
pub fn reply(text: &[u8], out: &mut [u8; WRITTEN]) -> usize
    ensures answered { Answered out.old out.new (reply text.now) result }
    ensures out_len { length out.new ≡ 26624 }
{
    let mut tris = [0u32; 192];
    let mut bits = [0u64; 192];
    let Some(h) = reading::read(text, &mut tris, &mut bits) else {
        return writing::refusal(out, NOT_IN_FORM);
    };
    meshed(h, &tris, &bits, out)
}
