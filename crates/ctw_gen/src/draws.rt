//! The numbers that a workload is made of.
ghost use Rattle.std.specs.Prelude.{◌≡◌, ◌<◌, ◌^◌, ◌/◌};
ghost use Rattle.ctw_gen.specs.Draws.{stepped};

use std::marker::Model;

/// A linear congruential generator, seen as its state.
#[derive(Debug, Drop)]
pub(crate) struct Draws {
    state: u32,
}

impl Model for Draws {
    ghost use Rattle.std.specs.Prelude.{ℕ, ◌<◌, ◌^◌};

    ghost Value = { ℕ };

    ghost view = { λ draws. draws.state };

    ghost invariant = { λ draws. draws.state < 2 ^ 31 };
}

impl Draws {
    /// The generator that begins with a seed below 2^31.
    pub(crate) fn new(seed: u32) -> Draws
        requires { seed < 2 ^ 31 }
        ensures { result ≡ seed }
    {
        Draws { state: seed }
    }

    /// The next number, which is below 2^15.
    pub(crate) fn draw(&mut self) -> u32
        ensures state { self.new ≡ stepped self.old }
        ensures drawn { result ≡ self.new / 65536 }
        ensures small { result < 2 ^ 15 }
    {
        let x = u64::from(self.state);
        self.state = ((x * 1_103_515_245 + 12_345) % (1 << 31)) as u32;
        self.state / 65_536
    }
}
