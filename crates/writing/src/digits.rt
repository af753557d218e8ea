// Numbers as digits, and fixed texts.
ghost use Rattle.std.specs.Prelude.{ℕ, to_bits, cond, [], ◌∷◌, ◌++◌, ◌≡◌, ◌+◌, ◌<◌, ◌≤◌, ltb, length};
ghost use Rattle.std.specs.Float.{binary64};
ghost use Rattle.definition.specs.Text.{Bytes, show, hex_in, show_bits};
ghost use Rattle.writing.specs.Put.{Written, Within, itself};

use words::bits_of;

// A fixed text.
pub fn fixed(out: &mut [u8], at: usize, text: &[u8]) -> usize
    requires { at + length text.now ≤ length out.old }
    ensures { Written out.old out.new at text.now result }
{
    let end = at + text.len();
    out[at..end].copy_from_slice(text);
    end
}

// A number in decimal: its last digit after those of a tenth of it.
fn number(out: &mut [u8], at: usize, n: u32) -> usize
    requires { at + length (show n) ≤ length out.old }
    ensures { Written out.old out.new at (show n) result }
{
    if n < 10 {
        out[at] = b'0' + n as u8;
        return at + 1;
    }
    let p = number(out, at, n / 10);
    out[p] = b'0' + (n % 10) as u8;
    p + 1
}

// A hexadecimal digit.
fn hex_digit(d: u64) -> u8
    requires { d < 16 }
    ensures { result ≡ cond (ltb d 10) (48 + d) (87 + d) }
{
    if d < 10 {
        return b'0' + d as u8;
    }
    87 + d as u8
}

// The last k hexadecimal digits of n.
// Kept (6): k says how many digits are written, and is no length of a slice.
fn hexes(out: &mut [u8], at: usize, k: usize, n: u64) -> usize
    requires { at + k ≤ length out.old }
    ensures { Written out.old out.new at (hex_in k n) result }
{
    if k == 0 {
        return at;
    }
    let p = hexes(out, at, k - 1, n / 16);
    out[p] = hex_digit(n % 16);
    p + 1
}

// What is written in a line, with a byte after it.
pub trait Shown: Copy {
    // its number, the number's text, and the most bytes of the text and the byte
    ghost number_of: { Self → ℕ };

    ghost text: { ℕ → Bytes };

    ghost most: { ℕ };

    // Its text, then the byte b.
    fn put(self, out: &mut [u8], at: usize, b: u8) -> usize
        requires { at + most ≤ length out.old }
        ensures { Within out.old out.new at (text (number_of self) ++ (b ∷ [])) result most };
}

// A number in decimal.
impl Shown for u32 {
    ghost number_of = { itself };

    ghost text = { show };

    ghost most = { 11 };

    fn put(self, out: &mut [u8], at: usize, b: u8) -> usize {
        let p = number(out, at, self);
        out[p] = b;
        p + 1
    }
}

// The bits of a float.
impl Shown for u64 {
    ghost number_of = { itself };

    ghost text = { show_bits };

    ghost most = { 17 };

    fn put(self, out: &mut [u8], at: usize, b: u8) -> usize {
        let p = hexes(out, at, 16, self);
        out[p] = b;
        p + 1
    }
}

// A float, by its bits.
impl Shown for f64 {
    ghost number_of = { to_bits binary64 };

    ghost text = { show_bits };

    ghost most = { 17 };

    fn put(self, out: &mut [u8], at: usize, b: u8) -> usize {
        bits_of(self).put(out, at, b)
    }
}
