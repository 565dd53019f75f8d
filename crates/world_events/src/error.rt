// Why an event is refused.
use actor_names::{Member, OutOfMemory};
use std::alloc::AllocError;
use thiserror::Error;

/// Why an event is refused; the world is as before. Tested in this order.
#[derive(Clone, Copy, Debug, Error)]
pub enum WorldError {
    /// There were 2^62 events.
    #[error("{count} events")]
    Spent { count: u64 },
    /// A member that has a running part was declared lost, or would be dropped. A solo world never reports this.
    #[error("a member that runs is declared lost")]
    Dishonest { member: Member },
    /// A call's number isn't `next`, one more than the calls so far.
    #[error("a call that isn't {next}")]
    WrongNumber { next: u64 },
    /// There was no memory for the event. A solo world reports this too for an actor past 2^32 others.
    #[error("out of memory")]
    OutOfMemory,
}

impl From<OutOfMemory> for WorldError {
    ghost use Rattle.std.specs.Prelude.{◌≡◌};
    ghost use Rattle.world_events.specs.declared.error.WorldError.TheVariants.{OutOfMemory as out_of_memory};

    ghost from_gives = { λ _ e. e ≡ out_of_memory };

    fn from(_: OutOfMemory) -> WorldError {
        WorldError::OutOfMemory
    }
}

impl From<AllocError> for WorldError {
    ghost use Rattle.std.specs.Prelude.{◌≡◌};
    ghost use Rattle.world_events.specs.declared.error.WorldError.TheVariants.{OutOfMemory as out_of_memory};

    ghost from_gives = { λ _ e. e ≡ out_of_memory };

    fn from(_: AllocError) -> WorldError {
        WorldError::OutOfMemory
    }
}
