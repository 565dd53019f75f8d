// Why the store refuses a command.
ghost use Rattle.std.specs.Prelude.{◌≡◌};
ghost use Rattle.frame_wire.specs.StoreParts.{store_refusal_tag};

use schedule_text::Moment;

/// Why the store refuses a command. The last three are said of epochs, which only a store with a fence knows. `op` is the index of an operation, counted from 0.
#[derive(Clone, Copy, Debug)]
pub enum StoreRefusal {
    /// The boot of the stamp isn't `greatest`, the greatest one of its node, which is at most 2^62, and 0 for an
    /// unknown node.
    OtherBoot { greatest: u64 },
    /// The number of the stamp isn't above `floor`, and its answer isn't kept any more.
    OldSeq { floor: u64 },
    /// There are already as many nodes as there may be.
    NodesFull { nodes: u32 },
    /// The last boot, 2^62, was drawn.
    Spent,
    /// There are `n` operations, too many.
    TooManyOps { n: u64 },
    /// The key has `n` bytes: none, or too many.
    KeyTooLong { op: u64, n: u64 },
    /// The value has `n` bytes, too many.
    ValueTooLong { op: u64, n: u64 },
    /// The reminder is due at another moment, `next`.
    OtherMoment { next: Moment },
    /// The journal has `len` bytes and no room for more.
    Full { len: u64 },
    /// The disk failed.
    DiskFault,
    /// The disk failed before; the store must be opened again.
    Reopen,
    /// There was no memory; the store is as before.
    OutOfMemory,
    /// The command has `n` bytes in the journal, more than a record may have.
    CommandTooLong { n: u64 },
    /// The epoch of the transaction is below `seen`, that of the actor.
    StaleEpoch { seen: u64 },
    /// The operation names the key at which the epoch of the actor stands.
    ReservedKey { op: u64 },
    /// The transaction has no epoch.
    Unfenced,
}

impl StoreRefusal {
    /// The number that the refusal has in frames.
    pub fn code(self) -> u8
        ensures { result ≡ store_refusal_tag self }
    {
        match self {
            StoreRefusal::OtherBoot { .. } => 1,
            StoreRefusal::OldSeq { .. } => 2,
            StoreRefusal::NodesFull { .. } => 3,
            StoreRefusal::Spent => 4,
            StoreRefusal::TooManyOps { .. } => 5,
            StoreRefusal::KeyTooLong { .. } => 6,
            StoreRefusal::ValueTooLong { .. } => 7,
            StoreRefusal::OtherMoment { .. } => 8,
            StoreRefusal::Full { .. } => 9,
            StoreRefusal::DiskFault => 10,
            StoreRefusal::Reopen => 11,
            StoreRefusal::OutOfMemory => 12,
            StoreRefusal::CommandTooLong { .. } => 13,
            StoreRefusal::StaleEpoch { .. } => 14,
            StoreRefusal::ReservedKey { .. } => 15,
            StoreRefusal::Unfenced => 16,
        }
    }
}
