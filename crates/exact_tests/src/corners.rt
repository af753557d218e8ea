// A corner of three spots, and a limit of its cosine.
ghost use Rattle.std.specs.Prelude.{◌≡◌, true};
ghost use Rattle.definition.specs.Floats.{◌≺◌, ◌≼◌, 0·5, 1·0};
ghost use Rattle.exact_tests.specs.Corners.{Given};

use plane::points::Spot;

// The corner at `here`; its three spots are within 8 of zero.
#[derive(Clone, Copy)]
pub struct Corner {
    pub before: Spot,
    pub here: Spot,
    pub after: Spot,
    ghost given: { Given before here after },
}

// A limit from 0.5 on, below 1.
#[derive(Clone, Copy)]
pub struct CosineLimit {
    pub cosine: f64,
    ghost least: { (0·5 ≼ cosine) ≡ true },
    ghost below: { (cosine ≺ 1·0) ≡ true },
}
