//! Numbers that look random, and are the same for the same seed.
ghost use Rattle.std.specs.Prelude.{◌≡◌, ◌<◌};
ghost use Rattle.scenario_gen.specs.Draws.{below};

/// The multiplier of Knuth's MMIX.
const MULTIPLIER: u64 = 6_364_136_223_846_793_005;

/// Its increment.
const INCREMENT: u64 = 1_442_695_040_888_963_407;

/// A linear congruential generator modulo 2^64.
#[derive(Drop)]
pub(crate) struct Draws {
    pub(crate) x: u64,
}

impl Draws {
    /// A number below `m`, made of the high 31 bits of the next state: the low ones come round too soon.
    pub(crate) fn below(&mut self, m: u16) -> u16
        requires { 0 < m }
        ensures number { result ≡ (below m self.old.x).got }
        ensures state { self.new.x ≡ (below m self.old.x).state }
        ensures bound { result < m }
    {
        self.x = self.x.wrapping_mul(MULTIPLIER).wrapping_add(INCREMENT);
        ((self.x >> 33) % u64::from(m)) as u16
    }
}
