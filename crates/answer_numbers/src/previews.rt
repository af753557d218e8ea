// What a front edge would give, as twelve numbers.
ghost use Rattle.std.specs.Prelude.{◌≡◌, length, ◌≤◌};
ghost use Rattle.definition.specs.Call.{onto};
ghost use Rattle.mesher.specs.Previews.{kind_of, born_of, cost_of, shown_of};
ghost use Rattle.answer_numbers.specs.Previews.{kind_number, twelve, shown_numbers, refusal_number};

use mesher::preview::{Born, Cost, Kind, Shown};
use refusals::Refusal;

// Numbers of a preview: what it is, the kind of refusal, insertions, flips, and the quad's eight.
pub const NUMBERS: usize = 12;

// Kept (1): it is made here for C alone.
// Kept (2): alike by chance, other functions map other kinds to other numbers.
// Kept (4): the numbers are those of C's header for a preview, so the enum, which the mesher uses, doesn't have them.
// The kinds of refusal in the order of the counts.
fn kind_number(kind: Kind) -> usize
    ensures { result ≡ kind_number (kind_of kind) }
{
    match kind {
        Kind::Placement => 1,
        Kind::InvalidQuad => 2,
        Kind::Recovery => 3,
        Kind::Region => 4,
        Kind::OddRegion => 5,
    }
}

// Twelve numbers come to the front of the slice.
fn write_shown(answer: &mut [usize], what: usize, kind: usize, cost: Cost, quad: Born)
    requires { 12 ≤ length answer.old }
    ensures { answer.new ≡ onto (twelve what kind (cost_of cost) (born_of quad)) answer.old }
{
    answer[0] = what;
    answer[1] = kind;
    answer[2] = cost.insertions;
    answer[3] = cost.flips;
    answer[4] = quad.n0;
    answer[5] = quad.n1;
    answer[6] = quad.n2;
    answer[7] = quad.n3;
    answer[8] = quad.u;
    answer[9] = quad.v;
    answer[10] = quad.round;
    answer[11] = quad.replaced;
}

// What is shown comes to the front of the slice, and 0 is returned.
// A refusal's number is returned and leaves the slice as it was.
pub fn put_shown(answer: &mut [usize], shown: Result<Shown, Refusal>) -> usize
    requires { 12 ≤ length answer.old }
    ensures { (result ≡ refusal_number (shown_of shown)) × (answer.new ≡ onto (shown_numbers (shown_of shown)) answer.old) }
{
    let no_quad = Born {
        n0: 0,
        n1: 0,
        n2: 0,
        n3: 0,
        u: 0,
        v: 0,
        round: 0,
        replaced: 0,
    };
    let shown = match shown {
        Ok(shown) => shown,
        Err(k) => return k.into(),
    };
    match shown {
        Shown::OffFront(cost) => {
            write_shown(answer, 0, 0, cost, no_quad);
            return 0;
        }
        Shown::Quad(quad, cost) => {
            write_shown(answer, 1, 0, cost, quad);
            return 0;
        }
        Shown::Refused(kind, cost) => {
            write_shown(answer, 2, kind_number(kind), cost, no_quad);
            return 0;
        }
    }
}
