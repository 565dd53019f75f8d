// What comes of an event: one outcome for each line that a replay prints.
use crate::versions::Versions;
use actor_names::{ActorKey, Member};
use place_table::AckStage;
use round_core::PlaceReply;

/// What comes of a call, of its end or poll, and of a hold, in both kinds of world. Calls are given by the script's
/// numbers.
#[derive(Clone, Copy)]
pub enum TurnOutcome {
    /// The call's turn is open.
    Begun { call: u64 },
    /// The call waits in its actor's queue, at this place from 1.
    Waits { call: u64, place: u64 },
    /// The call was refused: its chain has `turns` open, as many as the depth allows.
    Depth { call: u64, turns: u64 },
    /// The call was refused: its actor's queue is full.
    QueueFull { call: u64 },
    /// The call's turn has ended, and the turn of `next`, if any, has begun.
    Ended { call: u64, next: Option<u64> },
    /// The call is neither open nor in the queue.
    AlreadyEnded { call: u64 },
    /// The call is in the queue.
    StillWaiting { call: u64 },
    /// What the event names doesn't exist, or is a call that was refused.
    NotThere,
    /// The actor is held once more.
    Held,
    /// The actor isn't active, so it can't be held.
    NotActive,
    /// The actor is held once less.
    Released,
    /// There is no hold to release.
    NotHeld,
}

/// What comes of an event of a cluster script. Messages are numbered from 1.
#[derive(Drop)]
pub enum Outcome {
    /// What comes of a call or a hold, if the part does it.
    Turn {
        outcome: TurnOutcome,
    },
    /// The call was refused: the part has 65,536 cells.
    PartFull {
        call: u64,
    },
    /// The call has no host: no member serves its type in the table of this version.
    NoHost {
        call: u64,
        version: u64,
    },
    /// The call belongs to another member by the table of this version.
    Elsewhere {
        call: u64,
        version: u64,
        member: Member,
    },
    /// The call was refused: the part has seen no greater version than `seen`.
    Behind {
        call: u64,
        seen: u64,
    },
    /// The part has stopped.
    Stopped,
    /// The present moment, in milliseconds.
    At {
        moment: u64,
    },
    /// A member with this boot asks to be registered.
    Booted {
        member: Member,
        message: u64,
    },
    /// A member asks what there is to do.
    BeatAdded {
        message: u64,
    },
    /// A member says what its parts have reached.
    AckAdded {
        message: u64,
        stage: AckStage,
        version: u64,
    },
    /// A member leaves.
    LeaveAdded {
        message: u64,
    },
    /// There is nothing to acknowledge.
    NoAck,
    /// The member has a running part, so it can't leave.
    NotStopped,
    /// The placement answers.
    Answered {
        message: u64,
        reply: PlaceReply,
    },
    /// The message changes nothing at the part.
    Ignored,
    /// The part has locked.
    Locked {
        version: u64,
    },
    /// The part has the round's table, and is drained or not.
    Updated {
        version: u64,
        drained: bool,
    },
    /// The part has opened: `begun` waiting calls began, and `moved` were moved.
    Opened {
        version: u64,
        begun: u32,
        moved: u32,
    },
    /// The part isn't drained, so it doesn't open.
    NotDrained {
        version: u64,
    },
    /// `turns` turns of actors with other owners were ended.
    TickEnded {
        turns: u64,
    },
    /// The actor is closing.
    Closing {
        key: ActorKey,
    },
    /// No actor may be deactivated.
    NoneClosing,
    /// The actor is no longer active; the turn of the call `next`, if any, has begun.
    Closed {
        key: ActorKey,
        next: Option<u64>,
    },
    /// The actor isn't closing.
    NotClosing,
    /// The member is no longer a member.
    Lost {
        member: Member,
    },
    /// There is no such member; `greatest` is the greatest boot of its node.
    NotMember {
        greatest: u64,
    },
    /// `members` members weren't heard from in time, and are no longer members.
    Dropped {
        members: u32,
    },
    /// The placement was restarted; `versions` has the version of the round that starts in each room, 0 for none.
    Restarted {
        versions: Versions,
    },
}
