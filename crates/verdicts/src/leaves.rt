// The clauses of an acceptance that go by nodes: sides, joints, components.
ghost use Rattle.std.specs.Prelude.{length};
ghost use Rattle.verdicts.specs.Odd.{OddOf};
ghost use Rattle.verdicts.specs.Leaves.{Judgeable, Finds};

use groups::groups;
use lost_joints::lost_joint;
use uprights::sides::balance_upright;
use words::wide;

// The least edge whose sides do not balance and the first joint that is lost, None where there is none;
// how many components the leftover triangles have, and how many of these are odd.
#[derive(Clone, Copy)]
pub struct Found {
    pub uneven: Option<(usize, usize)>,
    pub lost: Option<usize>,
    pub components: usize,
    pub odd: usize,
}

// How many of the sizes are odd.
pub fn count_odd(sizes: &[u32]) -> usize
    ensures { OddOf sizes.now (length sizes.now) result }
{
    let mut n = 0;
    for x in sizes {
        n += wide(*x) % 2;
    }
    n
}

// The verdict on sides, joints and components.
// It takes a work slice of four words for each side and two words in `parents` for each leftover triangle.
// The components' sizes stand first in `components` then.
pub fn judge(
    given_points: &[f64],
    given: &[u32],
    count: usize,
    points: &[f64],
    quads: &[u32],
    quad_count: usize,
    left: &[u32],
    left_count: usize,
    joints: &[u32],
    n: usize,
    w: &mut [u32],
    parents: &mut [u32],
    components: &mut [u32],
) -> Found
    requires { Judgeable given_points.now given.now count points.now quads.now quad_count left.now left_count joints.now n w.old parents.old components.old }
    ensures { Finds given_points.now given.now count points.now quads.now quad_count left.now left_count joints.now n components.old components.new result }
{
    let uneven = balance_upright(
        given_points,
        given,
        count,
        points,
        quads,
        quad_count,
        left,
        left_count,
        w,
    );
    let lost = lost_joint(
        given, count, quads, quad_count, left, left_count, joints, n, w,
    );
    let m = groups(left, left_count, w, parents, components);
    let odd = count_odd(&components[..m]);
    Found {
        uneven,
        lost,
        components: m,
        odd,
    }
}
