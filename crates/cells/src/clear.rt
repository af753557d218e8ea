// Slices cleared to zero.
ghost use Rattle.std.specs.Prelude.{◌≡◌, ℕ, ◌+◌, ◌<◌, ◌≤◌, length, get_or};
ghost use Rattle.definition.specs.Call.{all_of};
ghost use Rattle.laws.specs.Frames.{Only, Zeros};

// The n words from place `from` on are cleared.
pub fn clear_range(w: &mut [u32], from: usize, n: usize)
    requires { from + n ≤ length w.old }
    ensures only { Only w.old w.new from (from + n) }
    ensures by_index { (k : ℕ) → k < n → get_or w.new (from + k) 0 ≡ 0 }
{
    w[from..from + n].fill(0);
}

// The first n words are cleared.
pub fn clear_first(w: &mut [u32], n: usize)
    requires { n ≤ length w.old }
    ensures { Zeros w.old w.new n }
{
    clear_range(w, 0, n);
}

// Each place of the slice becomes z.
pub fn clear<T: Copy>(w: &mut [T], z: T)
    ensures { w.new ≡ all_of z w.old }
{
    for i in 0..w.len() {
        w[i] = z;
    }
}
