//! The sequence of numbers from which a script is drawn.
ghost use Rattle.std.specs.Prelude.{◌≡◌, ◌<◌};
ghost use Rattle.clay_gen.specs.Sequence.{advance, pick};

use std::marker::Model;

const MULTIPLIER: u64 = 6_364_136_223_846_793_005;

const INCREMENT: u64 = 1_442_695_040_888_963_407;

/// A linear congruential sequence modulo 2^64, of whose states the upper halves are drawn.
#[derive(Drop)]
pub struct Sequence {
    state: u64,
}

impl Model for Sequence {
    ghost use Rattle.std.specs.Prelude.{ℕ};

    ghost Value = { ℕ };

    ghost view = { λ a. a.state };
}

impl Sequence {
    /// The sequence behind this state.
    pub fn new(start: u64) -> Sequence
        ensures { result ≡ start }
    {
        Sequence { state: start }
    }

    /// The next number, reduced to one below the limit.
    pub fn pick(&mut self, limit: u32) -> u32
        requires { 0 < limit }
        ensures number { result ≡ pick self.old 0 limit }
        ensures state { self.new ≡ advance self.old }
        ensures within { result < limit }
    {
        self.state = self.state.wrapping_mul(MULTIPLIER).wrapping_add(INCREMENT);
        let drawn = self.state / 4_294_967_296;
        (drawn % u64::from(limit)) as u32
    }
}
