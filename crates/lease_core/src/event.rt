// What happens in a world with leases.
ghost use Rattle.std.specs.Prelude.{◌≡◌};

use std::marker::Model;
use world_events::WorldEvent;

/// How far each member's clock goes forward, in milliseconds, in order of boot.
#[derive(Drop)]
pub struct ClockSteps {
    items: Vec<u64>,
}

impl Model for ClockSteps {
    ghost use Rattle.std.specs.Prelude.{List, ℕ};

    ghost Value = { List ℕ };

    ghost view = { λ a. a.items.items };
}

impl ClockSteps {
    /// The steps of a vector, in its order.
    pub fn from_vec(items: Vec<u64>) -> ClockSteps
        ensures { result ≡ items.items }
    {
        ClockSteps { items }
    }

    /// The steps.
    pub fn as_slice(&self) -> &[u64]
        ensures { result.now ≡ self.now }
    {
        self.items.as_slice()
    }
}

/// What happens in a world with leases. Messages are numbered from 1 in the order in which they were added.
#[derive(Drop)]
pub enum LeaseEvent {
    /// Time passes: the placement's clock goes forward by `placement` milliseconds, and each member's by its own step.
    /// Then every part of each member whose lease has ended is given StopPart.
    Pass { placement: u64, members: ClockSteps },
    /// An event of the world other than `at`, by the clock of the placement or of the member at which it happens.
    Step { event: WorldEvent },
    /// An answer of the placement reaches its member, whose lease it extends by the sending moment of the request that
    /// it answers.
    Answer { message: u64 },
}
