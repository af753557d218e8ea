// Functions on f64 that Rust has as methods.
ghost use Rattle.std.specs.Prelude.{◌≡◌};
ghost use Rattle.definition.specs.Floats.{abs, finite, lesser, greater};

// Kept (4): of two equal numbers, or where one is a NaN, f64's `min` and `max` promise another one than this contract.
// The smaller of two numbers; the first where they are equal or the second is a NaN.
pub fn lesser(x: f64, y: f64) -> f64
    ensures { result ≡ lesser x y }
{
    if y < x {
        return y;
    }
    x
}

// Kept (4): as `lesser`, for f64's `max` promises another one of two equal numbers, or where one is a NaN.
// The greater of two numbers; the first where they are equal or the second is a NaN.
pub fn greater(x: f64, y: f64) -> f64
    ensures { result ≡ greater x y }
{
    if x < y {
        return y;
    }
    x
}

// The number is neither infinite nor a NaN.
pub fn finite(x: f64) -> bool
    ensures { result ≡ finite x }
{
    if x > -1.0 / 0.0 {
        return x < 1.0 / 0.0;
    }
    false
}

// The number without its sign.
pub fn abs(x: f64) -> f64
    ensures { result ≡ abs x }
{
    if x < 0.0 {
        return -x;
    }
    if x == 0.0 {
        return 0.0;
    }
    x
}
