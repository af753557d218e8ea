// Single values of the input: fixed bytes, decimal numbers, the bits of floats.
// Each is read at the front of the bytes; with it come those that are left.
ghost use Rattle.std.specs.Prelude.{◌≡◌, ℕ, true, false, MatchOption};
ghost use Rattle.std.proofs.Math.Option.{none};
ghost use Rattle.definition.specs.Text.{Bytes, Reader, exactly, is_digit, run, decimal, well_formed, one_digit, is_hex, hex_digit, hex, node};
ghost use Rattle.reading.specs.Found.{taken, limited, up_to, and_then, itself};

// A node number is at most this.
const MOST_NODE: u32 = 4294967295;

// The bytes of `text` themselves.
pub fn expect<'a>(s: &'a [u8], text: &[u8]) -> Option<&'a [u8]>
    ensures { MatchOption result (none ≡ exactly text.now s.now) (λ rest. taken tt rest.now ≡ exactly text.now s.now) }
{
    s.strip_prefix(text)
}

// The byte is a decimal digit.
fn is_digit(c: u8) -> bool
    ensures { result ≡ is_digit c }
{
    c.is_ascii_digit()
}

// The digits at the front are well formed: there is one, and no zero before another.
fn well_formed(s: &[u8]) -> bool
    ensures { result ≡ well_formed (run s.now).value }
{
    let Some((first, rest)) = s.split_first() else {
        return false;
    };
    if *first != b'0' {
        return is_digit(*first);
    }
    let Some((next, _)) = rest.split_first() else {
        return true;
    };
    !is_digit(*next)
}

// The number of the digits at the front; nothing as soon as it passes `most`.
fn digits(s: &[u8], most: u32) -> Option<(u32, &[u8])>
    ensures { MatchOption result (none ≡ limited most (decimal (run s.now))) (λ t. taken t.0 t.1.now ≡ limited most (decimal (run s.now))) }
{
    let mut v: u64 = 0;
    for (i, c) in s.iter().enumerate() {
        if !is_digit(*c) {
            return Some((v as u32, &s[i..]));
        }
        v = 10 * v + (*c - b'0') as u64;
        if v > most as u64 {
            return None;
        }
    }
    Some((v as u32, &s[s.len()..]))
}

// A decimal number of at most `most`, with no leading zero.
pub fn decimal(s: &[u8], most: u32) -> Option<(u32, &[u8])>
    ensures { MatchOption result (none ≡ up_to most s.now) (λ t. taken t.0 t.1.now ≡ up_to most s.now) }
{
    if well_formed(s) {
        digits(s, most)
    } else {
        None
    }
}

// One decimal digit.
pub fn digit(s: &[u8]) -> Option<(u32, &[u8])>
    ensures { MatchOption result (none ≡ one_digit s.now) (λ t. taken t.0 t.1.now ≡ one_digit s.now) }
{
    let (c, rest) = s.split_first()?;
    if is_digit(*c) {
        Some(((*c - b'0') as u32, rest))
    } else {
        None
    }
}

// A lowercase hexadecimal digit's value.
fn hex_value(c: u8) -> Option<u64>
    ensures { MatchOption result (is_hex c ≡ false) (λ d. (is_hex c ≡ true) × (d ≡ hex_digit c)) }
{
    if is_digit(c) {
        return Some((c - b'0') as u64);
    }
    if c < b'a' {
        return None;
    }
    if c > b'f' {
        return None;
    }
    Some((c - b'a') as u64 + 10)
}

// Sixteen hexadecimal digits.
pub fn bits(s: &[u8]) -> Option<(u64, &[u8])>
    ensures { MatchOption result (none ≡ hex s.now) (λ t. taken t.0 t.1.now ≡ hex s.now) }
{
    let (front, rest) = s.split_at_checked(16)?;
    let mut v: u64 = 0;
    for c in front {
        let d = hex_value(*c)?;
        v = 16 * v + d;
    }
    Some((v, rest))
}

// What was read, if the byte `b` follows it.
// Whatever reads the value with what is left, then `b` after it reads the result.
pub fn ended<'a, T: Copy>(found: Option<(T, &'a [u8])>, b: u8) -> Option<(T, &'a [u8])>
    ensures { (number : T → ℕ) → (r : Reader ℕ) → (s : Bytes) → MatchOption found.entry (none ≡ r s) (λ t. taken (number t.0) t.1.now ≡ r s) → MatchOption result (none ≡ and_then b r s) (λ t. taken (number t.0) t.1.now ≡ and_then b r s) }
{
    let (v, after) = found?;
    let rest = expect(after, &[b])?;
    Some((v, rest))
}

// What a list has three of in each line.
pub trait Listed: Copy {
    // the value's number, and the definition's reader of it
    ghost number_of: { Self → ℕ };

    ghost reader: { Reader ℕ };

    // The value at the front of the bytes.
    fn read(s: &[u8]) -> Option<(Self, &[u8])>
        ensures { MatchOption result (none ≡ reader s.now) (λ t. taken (number_of t.0) t.1.now ≡ reader s.now) };
}

// A node number.
impl Listed for u32 {
    ghost number_of = { itself };

    ghost reader = { node };

    fn read(s: &[u8]) -> Option<(u32, &[u8])> {
        decimal(s, MOST_NODE)
    }
}

// A float's bits.
impl Listed for u64 {
    ghost number_of = { itself };

    ghost reader = { hex };

    fn read(s: &[u8]) -> Option<(u64, &[u8])> {
        bits(s)
    }
}
