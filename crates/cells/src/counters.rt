// Live triangles, slots given out, points and attempts, by value.
ghost use Rattle.std.specs.Prelude.{◌≡◌, ◌≤◌};
ghost use Rattle.cells.specs.Counting.{Few, Attempted, Split, Quadded};

#[derive(Clone, Copy)]
pub struct Counters {
    pub live: usize,
    pub used: usize,
    pub points: usize,
    pub attempts: usize,
}

impl Counters {
    // Each given triangle is live in its slot.
    pub fn new(triangles: usize, points: usize) -> Self
        ensures { (result.live ≡ triangles) × (result.used ≡ triangles) × (result.points ≡ points) × (result.attempts ≡ 0) }
    {
        Self {
            live: triangles,
            used: triangles,
            points: points,
            attempts: 0,
        }
    }

    // An attempt is counted.
    pub fn attempted(mut self) -> Self
        requires { Few self }
        ensures { Attempted self result }
    {
        self.attempts += 1;
        self
    }

    // A triangle was split at a new point.
    pub fn split(mut self) -> Self
        requires { Few self }
        ensures { Split self result }
    {
        self.live += 2;
        self.used += 2;
        self.points += 1;
        self
    }

    // A quad was placed where so many triangles were.
    pub fn placed(mut self, gone: usize) -> Self
        requires few { Few self }
        requires gone_le_live { gone ≤ self.live }
        ensures { Quadded self result gone }
    {
        self.live -= gone;
        self.used += 1;
        self
    }
}
