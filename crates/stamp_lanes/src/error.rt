// Why a boot, a stamp or a row is refused.
use actor_names::OutOfMemory;
use thiserror::Error;

/// Why no boot is drawn, in the order in which the causes are tested. Nothing has changed.
#[derive(Clone, Copy, Debug, Error)]
pub enum BootError {
    /// There are 65,536 nodes already, `nodes`, and this would be a new one.
    #[error("{nodes} nodes already")]
    NodesFull { nodes: u32 },
    /// The counter of boots is at 2^62.
    #[error("the counter of boots is at its end")]
    Spent,
    /// There was no memory for the node.
    #[error("out of memory")]
    OutOfMemory,
}

/// Why a stamp is refused, in the order in which the causes are tested; a number that is kept comes between the two.
#[derive(Clone, Copy, Debug, Error)]
pub enum StampError {
    /// The member's boot isn't the one drawn last for its node, `greatest`; 0 for a node that never drew one.
    #[error("the last boot of the node is {greatest}")]
    OtherBoot { greatest: u64 },
    /// The number isn't kept, and is at or below `floor`, the greatest one that its lane dropped.
    #[error("the lane has dropped numbers up to {floor}")]
    OldSeq { floor: u64 },
}

/// Why a row isn't read back, in the order in which the causes are tested. Nothing has changed.
#[derive(Clone, Copy, Debug, Error)]
pub enum RestoreError {
    /// The node has a boot already.
    #[error("a second boot of one node")]
    SameNode,
    /// The lane is of a boot that isn't the one of its node, `greatest`; 0 for a node without a boot.
    #[error("a lane of another boot than {greatest}")]
    OtherBoot { greatest: u64 },
    /// The node has a lane of this part already.
    #[error("a second lane of one part")]
    SameLane,
    /// The lane has `n` numbers, more than 256.
    #[error("a lane of {n} numbers")]
    TooManyNumbers { n: u64 },
    /// The lane has this number twice.
    #[error("number {number} twice in a lane")]
    SameNumber { number: u64 },
    /// There was no memory for the row.
    #[error("out of memory")]
    OutOfMemory,
}

impl From<OutOfMemory> for BootError {
    ghost use Rattle.stamp_lanes.specs.declared.error.BootError.TheVariants.{OutOfMemory};
    ghost use Rattle.std.specs.Prelude.{◌≡◌};

    ghost from_gives = { λ _ e. e ≡ OutOfMemory };

    fn from(_: OutOfMemory) -> BootError {
        BootError::OutOfMemory
    }
}

impl From<OutOfMemory> for RestoreError {
    ghost use Rattle.stamp_lanes.specs.declared.error.RestoreError.TheVariants.{OutOfMemory};
    ghost use Rattle.std.specs.Prelude.{◌≡◌};

    ghost from_gives = { λ _ e. e ≡ OutOfMemory };

    fn from(_: OutOfMemory) -> RestoreError {
        RestoreError::OutOfMemory
    }
}
