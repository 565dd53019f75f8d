// What happens to a part, and what it answers.
use actor_names::{ActorKey, ChainId};
use place_table::{HostInfo, Table};

/// What happens to a part. Moments are milliseconds since 1970.
#[derive(Drop)]
pub enum PartEvent {
    /// A call of an actor. If it brings no chain and the actor's type has reentrancy on, the part makes the
    /// chain `<node>.<boot>.<part>.<call>`.
    Ask {
        key: ActorKey,
        chain: Option<ChainId>,
        now: u64,
    },
    /// The same, from a caller that knows of a table of version `least`.
    AskAt {
        key: ActorKey,
        chain: Option<ChainId>,
        least: u64,
        now: u64,
    },
    /// The part's next number is to be drawn.
    Draw,
    /// A caller asks for the state of the call.
    Poll {
        call: u64,
    },
    /// The call's turn ends.
    End {
        call: u64,
        now: u64,
    },
    /// The actor is held, which keeps it from being deactivated.
    Hold {
        key: ActorKey,
    },
    /// One hold of the actor ends.
    Release {
        key: ActorKey,
        now: u64,
    },
    /// No new chain may begin until the table of `version` is unlocked. A version is at most 2^62.
    Lock {
        version: u64,
    },
    /// The table of the round, whose version is at most 2^62.
    Update {
        table: Table,
        now: u64,
    },
    /// Actors may begin by the table of `version`, which is at most 2^62.
    Unlock {
        version: u64,
    },
    /// Time has passed.
    Tick {
        now: u64,
    },
    /// The first actor, in order of key, that may be deactivated is to be taken.
    TakeClosing {
        now: u64,
    },
    /// The deactivation call of the actor has ended.
    Closed {
        key: ActorKey,
    },
    /// The part is to stop for good.
    StopPart,
}

/// What a part answers, with receipts of type `R`. A refused event leaves the part as it was and draws no number.
#[derive(Drop)]
pub enum Reply<R> {
    /// The call's turn is open. The chain is `None` if reentrancy is off.
    Begun { call: u64, chain: Option<ChainId> },
    /// The call waits, at this place in the queue, counted from 1.
    Waits { call: u64, place: u64 },
    /// Refused: all 2^62 numbers have been drawn.
    Spent { count: u64 },
    /// Refused: the greatest version that the part has seen is `seen`, which is below `least`.
    Behind { seen: u64 },
    /// Refused: the call's chain already has as many open turns as the depth allows.
    Depth { turns: u64 },
    /// No host of the installed table serves the type; a moved call is forgotten with this reply.
    NoHost { version: u64 },
    /// The installed table gives the actor to `owner`; a moved call is forgotten with this reply.
    Elsewhere { version: u64, owner: HostInfo },
    /// Refused: the part has 65,536 cells, and the actor would need a new one.
    PartFull,
    /// Refused: the actor's queue is full, with `n` calls, the maximum of 1,024.
    QueueFull { n: u64 },
    /// The number that was drawn, from 1.
    Drawn { n: u64 },
    /// The call is neither open nor in a queue.
    AlreadyEnded,
    /// The turn has ended. If `next` is a call, its turn has begun.
    Ended { next: Option<u64> },
    /// The call is in a queue.
    StillWaiting,
    /// The actor is held; `n` is a number drawn for it.
    Held { n: u64 },
    /// Refused: the actor isn't active, or is closing.
    NotActive,
    /// One hold was removed.
    Released,
    /// Refused: there is no hold.
    NotHeld,
    /// `changed` says whether the table event changed the part.
    TableStep { receipt: R, changed: bool },
    /// The part has opened; `begun` waiting calls began, and `moved` were moved.
    Opened { receipt: R, begun: u32, moved: u32 },
    /// Refused: some active actor belongs to another owner.
    NotDrained { receipt: R },
    /// `ended` turns of actors of other owners were ended.
    Ticked { receipt: R, ended: u32 },
    /// The actor is now closing, and its deactivation call must be made.
    Close { key: ActorKey },
    /// No actor may be deactivated.
    NoneClosing,
    /// The actor is no longer closing. If `next` is a call, its turn has begun.
    ClosedDone { next: Option<u64> },
    /// Refused: the actor isn't closing.
    NotClosing,
    /// The part has stopped.
    StoppedNow { receipt: R },
    /// Refused: the part has stopped.
    Stopped,
    /// Out of memory; the part is as before. Only an Ask or AskAt that isn't `Spent` or `Behind` may be answered so,
    /// a Poll that would hand out a chain or an owner, and a TakeClosing that would hand out a key.
    OutOfMemory,
}
