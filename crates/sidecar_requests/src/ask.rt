// What a request asks of the store.
ghost use Rattle.std.specs.Prelude.{◌≡◌};
ghost use Rattle.sidecar_requests.specs.Asks.{wanted_of};

use actor_names::RecordName;
use frame_wire::StateOps;
use reminder_rows::Reminder;
use state_rows::StateKey;

/// What a request asks of the store for its actor.
#[derive(Drop)]
pub enum StoreAsk {
    /// Operations on the actor's state, all or none.
    Transact {
        ops: StateOps,
    },
    /// The value under a key.
    GetState {
        key: StateKey,
    },
    /// A reminder in place of one of the same name.
    PutReminder {
        name: RecordName,
        reminder: Reminder,
    },
    /// The reminder of this name.
    GetReminder {
        name: RecordName,
    },
    /// No reminder of this name any more.
    DeleteReminder {
        name: RecordName,
    },
}

/// Which of these a request asks.
#[derive(Clone, Copy)]
pub enum Wanted {
    Transaction,
    State,
    PutReminder,
    Reminder,
    DeleteReminder,
}

impl StoreAsk {
    // Which of these it is.
    pub(crate) fn wanted(&self) -> Wanted
        ensures { result ≡ wanted_of self.now }
    {
        match self {
            StoreAsk::Transact { .. } => Wanted::Transaction,
            StoreAsk::GetState { .. } => Wanted::State,
            StoreAsk::PutReminder { .. } => Wanted::PutReminder,
            StoreAsk::GetReminder { .. } => Wanted::Reminder,
            StoreAsk::DeleteReminder { .. } => Wanted::DeleteReminder,
        }
    }
}
