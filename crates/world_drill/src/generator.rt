// The generator of a drill.
ghost use Rattle.std.specs.Prelude.{◌≡◌};
ghost use Rattle.world_drill.specs.Drill.{next_seed, draw_of};

use std::marker::Model;

/// A linear congruential generator of 64 bits, whose upper 31 bits are drawn.
#[derive(Drop)]
pub(crate) struct Generator {
    seed: u64,
}

impl Model for Generator {
    ghost use Rattle.std.specs.Prelude.{ℕ};

    ghost Value = { ℕ };

    ghost view = { λ a. a.seed };
}

impl Generator {
    /// The generator of a seed.
    pub(crate) fn new(seed: u64) -> Generator
        ensures { result ≡ seed }
    {
        Generator { seed }
    }

    /// The next draw.
    pub(crate) fn draw(&mut self) -> u64
        ensures next { self.new ≡ next_seed self.old }
        ensures drawn { result ≡ draw_of self.new }
    {
        self.seed = self
            .seed
            .wrapping_mul(6364136223846793005)
            .wrapping_add(1442695040888963407);
        self.seed / 8589934592
    }
}
