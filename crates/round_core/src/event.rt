// What happens to a placement, and what it answers.
use actor_names::Member;
use place_table::{AckStage, HostInfo};

/// What happens to a placement.
#[derive(Drop)]
pub enum PlaceEvent {
    /// A host asks to join, or is heard again.
    Register {
        host: HostInfo,
    },
    /// A member is alive.
    Beat {
        member: Member,
    },
    /// A member has reached this stage of the round at this version.
    Ack {
        member: Member,
        stage: AckStage,
        version: u64,
    },
    /// A member leaves.
    Leave {
        member: Member,
    },
    /// A member was lost, and all of it has stopped.
    Lost {
        member: Member,
    },
    /// Time has passed.
    Tick,
    /// Somebody looks at the members.
    Look,
}

/// What a placement answers.
#[derive(Clone, Copy, Debug)]
pub enum PlaceReply {
    /// The member is to lock for the table of `version`.
    Lock { version: u64 },
    /// The member is to take up the table that was fixed last.
    Update { version: u64 },
    /// The member is to unlock at `version`.
    Unlock { version: u64 },
    /// There is nothing for the member to do.
    Idle,
    /// The member is no longer a member.
    Gone,
    /// `dropped` members were not heard for 10,000 milliseconds or more, and are no longer members.
    Ticked { dropped: u32 },
    /// Nothing has changed.
    Looked,
    /// Refused: the boot isn't above the greatest one of its node.
    StaleBoot { greatest: u64 },
    /// Refused: the node has a member, with this boot.
    NodeBusy { boot: u64 },
    /// Refused: there is no such member; the greatest boot of its node, 0 for an unknown node.
    NotMember { greatest: u64 },
    /// Refused: there are as many spaces as there may be, and the member is of another one. No room answers this.
    SpacesFull { spaces: u32 },
    /// Refused: there are 256 members, or 65,536 known nodes and this one is new.
    Full { members: u32, nodes: u32 },
    /// There was no memory; the placement's state is as before. Only a Register is answered this.
    OutOfMemory,
}
