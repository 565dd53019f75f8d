// Why an event of a world with leases is refused.
use actor_names::{Member, OutOfMemory};
use std::alloc::AllocError;
use thiserror::Error;
use world_events::WorldError;

/// Why an event is refused; the world is as before. Tested in this order.
#[derive(Clone, Copy, Debug, Error)]
pub enum LeaseError {
    /// A pass has another number of steps than there are members, and `at` is the lesser of the two; or at member `at`,
    /// counted from 0 in order of boot, one of the two steps is less than half of the other, and at none before it.
    #[error("the clock of member {at} goes too slow or too fast")]
    BadRate { at: u64 },
    /// A clock would reach the year 9999, 253,370,764,800,000 milliseconds.
    #[error("a clock past the year 9999")]
    Clock,
    /// The message isn't there, or isn't a reply.
    #[error("not a reply")]
    NoReply,
    /// The event sets the moment, which here the clocks do.
    #[error("a moment of its own")]
    HasAt,
    /// There were 2^62 events, or the stops of a pass would make more; `count` is the number of those so far.
    #[error("{count} events")]
    Spent { count: u64 },
    /// A member that has a running part was declared lost.
    #[error("a member that runs is declared lost")]
    Dishonest { member: Member },
    /// A call's number isn't `next`, one more than the calls so far.
    #[error("a call that isn't {next}")]
    WrongNumber { next: u64 },
    /// There was no memory for the event.
    #[error("out of memory")]
    OutOfMemory,
}

impl From<WorldError> for LeaseError {
    ghost use Rattle.std.specs.Prelude.{◌≡◌};
    ghost use Rattle.lease_core.specs.Causes.{cause_of};

    ghost from_gives = { λ x e. e ≡ cause_of x };

    fn from(error: WorldError) -> LeaseError {
        match error {
            WorldError::Spent { count } => LeaseError::Spent { count },
            WorldError::Dishonest { member } => LeaseError::Dishonest { member },
            WorldError::WrongNumber { next } => LeaseError::WrongNumber { next },
            WorldError::OutOfMemory => LeaseError::OutOfMemory,
        }
    }
}

impl From<OutOfMemory> for LeaseError {
    ghost use Rattle.std.specs.Prelude.{◌≡◌};
    ghost use Rattle.lease_core.specs.declared.error.LeaseError.TheVariants.{OutOfMemory as out_of_memory};

    ghost from_gives = { λ _ e. e ≡ out_of_memory };

    fn from(_: OutOfMemory) -> LeaseError {
        LeaseError::OutOfMemory
    }
}

impl From<AllocError> for LeaseError {
    ghost use Rattle.std.specs.Prelude.{◌≡◌};
    ghost use Rattle.lease_core.specs.declared.error.LeaseError.TheVariants.{OutOfMemory as out_of_memory};

    ghost from_gives = { λ _ e. e ≡ out_of_memory };

    fn from(_: AllocError) -> LeaseError {
        LeaseError::OutOfMemory
    }
}
