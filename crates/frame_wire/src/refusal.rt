// Why the placement refuses a message.

/// Why the placement refuses a message.
#[derive(Clone, Copy, Debug)]
pub enum Refusal {
    /// The boot isn't above `greatest`, the greatest one of its node, which is at most 2^62.
    StaleBoot { greatest: u64 },
    /// The node has a member with this boot, which is at most 2^62.
    NodeBusy { boot: u64 },
    /// There is no such member. `greatest` is the greatest boot of its node, at most 2^62, and 0 for an unknown node.
    NotMember { greatest: u64 },
    /// There are already as many members, or known nodes, as there may be.
    Full { members: u32 },
    /// The disk failed.
    DiskFault,
    /// The disk failed before; the placement must be opened again.
    Reopen,
    /// There was no memory; the placement is as before.
    OutOfMemory,
    /// The journal has `len` bytes and no room for more.
    JournalFull { len: u64 },
    /// There are already as many spaces as there may be, and the member is of another one.
    SpacesFull { spaces: u32 },
}
