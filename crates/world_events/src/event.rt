// What happens in the world of a script: one event for each event line.
use actor_names::{ActorKey, ChainId, Member, Node, Space};
use place_table::ActorTypes;

/// What happens in the world of a solo script. Keys, of the form `TYPE/ID`, and chains are borrowed from the script.
/// Calls are numbered from 1 in the order in which they were made.
#[derive(Clone, Copy)]
pub enum SoloEvent<'a> {
    /// An actor is called; the call's number is one more than the calls so far.
    Call {
        call: u64,
        key: &'a [u8],
        chain: Option<&'a [u8]>,
    },
    /// A call's turn is over.
    End {
        call: u64,
    },
    /// Somebody asks what state a call is in.
    Poll {
        call: u64,
    },
    /// An actor is held.
    Hold {
        key: &'a [u8],
    },
    /// One hold of an actor is over.
    Release {
        key: &'a [u8],
    },
}

/// What happens in a cluster. Messages are numbered from 1 in the order in which they were added, calls from 1 in the
/// order in which they were made, and the parts of a member from 0.
#[derive(Drop)]
pub enum WorldEvent {
    /// The present moment, in milliseconds.
    At {
        moment: u64,
    },
    /// A node of a space starts, and asks to be registered with these types.
    Boot {
        space: Space,
        node: Node,
        kinds: ActorTypes,
    },
    /// A member asks what there is to do.
    Beat {
        member: Member,
    },
    /// A member acknowledges what its parts have reached.
    Collect {
        member: Member,
    },
    /// A member whose parts have all stopped leaves.
    Leave {
        member: Member,
    },
    /// A request is delivered to the placement.
    To {
        message: u64,
    },
    /// An answer of the placement is delivered to a part of its member.
    Part {
        message: u64,
        part: u64,
    },
    /// An actor is called at a member, by a caller that knows of a table of version `least`.
    Call {
        call: u64,
        member: Member,
        key: ActorKey,
        least: u64,
        chain: Option<ChainId>,
    },
    /// Somebody asks what state a call is in.
    Poll {
        call: u64,
    },
    /// A call's turn is over.
    End {
        call: u64,
    },
    /// An actor is held.
    Hold {
        member: Member,
        key: ActorKey,
    },
    /// One hold of an actor is over.
    Release {
        member: Member,
        key: ActorKey,
    },
    /// Time has passed for a member.
    Tick {
        member: Member,
    },
    /// A part is to give up its next actor.
    Closing {
        member: Member,
        part: u64,
    },
    /// The deactivation call of an actor is over.
    Closed {
        member: Member,
        key: ActorKey,
    },
    /// A part is to stop for good.
    Stop {
        member: Member,
        part: u64,
    },
    /// A member was lost.
    Lost {
        member: Member,
    },
    /// Time has passed for the placement.
    PlacementTick,
    /// The placement was restarted.
    Restart,
}
