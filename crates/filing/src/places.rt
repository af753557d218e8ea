// Places of two words: triangles as numbers, rotated to start at their smallest node.
ghost use Rattle.std.specs.Prelude.{◌+◌, ◌*◌, ◌<◌, ◌≤◌, length};
ghost use Rattle.definition.specs.Cells.{new_tri};
ghost use Rattle.filing.specs.Filing.{rotated};
ghost use Rattle.sorting.specs.Places.{Put};
ghost use Rattle.filing.specs.Places.{key, Small, Filled};

// What a node's 12 binary digits count to.
const NODES: u32 = 4096;

// What the lowest 8 digits of the first node, which stand in the second word, count to.
const PART: u32 = 256;

// Place i gets the triangle of three nodes as it stands.
fn put(w: &mut [u32], i: usize, a: u32, b: u32, c: u32)
    requires { (2 * i + 1 < length w.old) × (a < 4096) × (b < 4096) × (c < 4096) }
    ensures { Put w.old w.new i (key (new_tri a b c)) }
{
    w[2 * i] = a / PART;
    w[2 * i + 1] = (a % PART * NODES + b) * NODES + c;
}

// Place i gets the triangle from its smallest node on.
fn put_rotated(w: &mut [u32], i: usize, a: u32, b: u32, c: u32)
    requires { (2 * i + 1 < length w.old) × (a < 4096) × (b < 4096) × (c < 4096) }
    ensures { Put w.old w.new i (key (rotated (new_tri a b c))) }
{
    if a <= b {
        if a <= c {
            put(w, i, a, b, c);
            return;
        }
        put(w, i, c, a, b);
        return;
    }
    if b <= c {
        put(w, i, b, c, a);
        return;
    }
    put(w, i, c, a, b);
}

// The first n triangles go to the first n places.
// Kept (6): the C interface lends slices that may be longer than what the mesh has of them.
pub fn put_triangles(triangles: &[u32], w: &mut [u32], n: usize)
    requires { (3 * n ≤ length triangles.now) × (2 * n ≤ length w.old) × Small triangles.now n }
    ensures { Filled triangles.now w.old w.new n }
{
    for i in 0..n {
        put_rotated(
            w,
            i,
            triangles[3 * i],
            triangles[3 * i + 1],
            triangles[3 * i + 2],
        );
    }
}
