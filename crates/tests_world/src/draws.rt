//! Numbers that look random.
ghost use Rattle.std.specs.Prelude.{◌<◌};

/// A linear congruence: the same numbers at each run.
#[derive(Drop)]
pub struct RandomDraws(u64);

impl RandomDraws {
    /// Those that follow the seed.
    pub fn new(seed: u64) -> RandomDraws {
        RandomDraws(seed)
    }

    /// A number below the count.
    pub fn below(&mut self, count: u32) -> u32
        requires { 0 < count }
        ensures { result < count }
    {
        self.0 = self
            .0
            .wrapping_mul(6_364_136_223_846_793_005)
            .wrapping_add(1_442_695_040_888_963_407);
        (self.0 >> 33) as u32 % count
    }
}
