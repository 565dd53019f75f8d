// What happens to a book of timers, and what it answers.
use crate::entry::DueTimer;
use crate::timer::Timer;
use actor_names::{ActorKey, RecordName};
use schedule_text::{Moment, Next};

/// What happens to a book: each event is the call with the same name.
#[derive(Drop)]
pub enum TimerEvent {
    /// A timer is registered.
    Set {
        key: ActorKey,
        name: RecordName,
        timer: Timer,
    },
    /// The timer with this key and name is removed.
    Delete {
        key: ActorKey,
        name: RecordName,
    },
    /// A caller asks which timer is to fire first, at or before `now`.
    Due {
        now: Moment,
    },
    /// The callback of the registration with this number runs.
    Started {
        key: ActorKey,
        name: RecordName,
        number: u64,
    },
    /// The callback of the registration with this number has ended.
    Finished {
        key: ActorKey,
        name: RecordName,
        number: u64,
        ended: Moment,
    },
    /// Every timer of the actor is removed.
    DropActor {
        key: ActorKey,
    },
}

/// What a book answers.
#[derive(Drop)]
pub enum TimerReply {
    /// The number of the registration.
    WasSet { number: u64 },
    /// Refused: the actor has 1,024 timers, and none of this name.
    Full,
    /// Refused: 2^62 registration numbers were drawn.
    Spent { count: u64 },
    /// Whether there was a timer.
    Deleted { existed: bool },
    /// The timer that is due, if there is one.
    DueIs { timer: Option<DueTimer> },
    /// Whether the registration is still there.
    Started { there: bool },
    /// When the timer fires next, if it does.
    Finished { next: Next },
    /// The actor has no timers any more.
    Dropped,
    /// Out of memory; the book is as before. Only Set and Due are answered so.
    OutOfMemory,
}
