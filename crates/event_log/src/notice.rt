// What a server has to say.
use actor_names::{Address, Member, Space};

/// A process that a server speaks with.
#[derive(Clone, Copy)]
pub enum Peer {
    /// The placement, to a sidecar.
    Placement,
    /// The store, to a sidecar.
    Store,
    /// The application, to its sidecar.
    Application,
}

/// Why a placement has sent a sidecar away, with the number of the frame that says so.
#[derive(Clone, Copy)]
pub enum Dismissal {
    /// A later boot of the node has registered: the greatest one.
    StaleBoot { greatest: u64 },
    /// The placement has dropped the member; the greatest boot of its node.
    NotMember { greatest: u64 },
    /// There are already as many spaces as there may be.
    SpacesFull { spaces: u32 },
    /// The space already has as many members as it may have.
    Full { members: u32 },
}

/// An event of a server. Copies take no memory.
#[derive(Clone, Copy)]
pub enum Notice {
    /// The server listens at this address.
    Listening {
        at: Address,
    },
    /// A member has joined the placement.
    Joined {
        member: Member,
    },
    /// A member has left it of its own accord.
    Left {
        member: Member,
    },
    /// A member wasn't heard for 10 seconds, and was dropped.
    Lost {
        member: Member,
    },
    /// A member left or was dropped; others went the other way in the same second.
    Gone {
        member: Member,
    },
    /// A round of a space began, which spreads the table of this version.
    RoundBegan {
        space: Space,
        version: u64,
    },
    /// It ended, at most so many milliseconds after it began.
    RoundEnded {
        space: Space,
        version: u64,
        within_ms: u64,
    },
    /// The store has written its journal anew: so many rows, in so many bytes.
    Compacted {
        rows: u64,
        len: u64,
    },
    /// A compaction was due, and the store couldn't make it; it goes on with the longer file.
    NotCompacted,
    /// A disk failed, or a placement's standby did: the server ends.
    DiskFailed,
    /// The placement wasn't heard for so many milliseconds: the sidecar stops.
    LeaseEnded {
        silent_ms: u64,
    },
    /// The placement has sent the sidecar away: it stops.
    Dismissed {
        why: Dismissal,
    },
    /// A process isn't reached at this address, or what it answers can't be read.
    Away {
        peer: Peer,
        at: Address,
    },
    /// It is reached again.
    Back {
        peer: Peer,
        at: Address,
    },
    /// The store at this address has refused a sidecar's boot or its question for reminders, with this code of its frames.
    StoreRefused {
        at: Address,
        code: u8,
    },
    /// The application at this address gave no configuration: the sidecar ends.
    NotConfigured {
        at: Address,
    },
    /// A placement is connected to this standby.
    Attached,
    /// It no longer is; so many calls of it were answered.
    Detached {
        calls: u64,
    },
    /// The server ends.
    Ended,
}
