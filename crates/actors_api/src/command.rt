// What a request asks for.
use actor_names::{ActorKey, ChainId, RecordName};
use call_names::CallName;
use frame_wire::StateOps;
use http_edge::Bytes;
use reminder_rows::Reminder;
use state_rows::StateKey;
use timer_book::Timer;

/// What a request asks for: one variant for each row of the table of routes.
#[derive(Drop)]
pub enum ApiCommand {
    /// Calls a method. `method` is the rest of the path as it was spelled, and the query behind it with its `?`.
    /// `least` is the version of the table that a peer knows of, `call` the name that it gives to the call; a caller has
    /// neither.
    Invoke {
        actor: ActorKey,
        method: Bytes,
        chain: Option<ChainId>,
        least: Option<u64>,
        call: Option<CallName>,
    },
    /// Makes operations on the actor's state, all or none. At most 1,000; keys and values have their lengths.
    Transact {
        actor: ActorKey,
        ops: StateOps,
    },
    /// The value under a key.
    GetState {
        actor: ActorKey,
        key: StateKey,
    },
    /// Registers a reminder in place of one of the same name.
    PutReminder {
        actor: ActorKey,
        name: RecordName,
        reminder: Reminder,
    },
    /// The reminder of this name.
    GetReminder {
        actor: ActorKey,
        name: RecordName,
    },
    /// Removes the reminder of this name, if there is one.
    DeleteReminder {
        actor: ActorKey,
        name: RecordName,
    },
    /// Registers a timer in place of one of the same name.
    SetTimer {
        actor: ActorKey,
        name: RecordName,
        timer: Timer,
    },
    /// Removes the timer of this name, if there is one.
    DeleteTimer {
        actor: ActorKey,
        name: RecordName,
    },
}
