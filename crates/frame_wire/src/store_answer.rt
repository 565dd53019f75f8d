// What the store answers.
use crate::store_refusal::StoreRefusal;
use reminder_rows::{DueKey, ReminderPayload, ReminderText};
use schedule_text::Next;
use state_rows::StateValue;
use std::marker::Model;

/// A reminder that is due, and what its callback is given.
#[derive(Debug, Drop)]
pub struct DueEntry {
    /// When it is due, and under which name.
    pub key: DueKey,
    /// The text that says when it is due.
    pub due: ReminderText,
    /// The text of its period.
    pub period: ReminderText,
    /// What the callback is given.
    pub payload: Option<ReminderPayload>,
}

/// Reminders that are due, in their order; contracts see them as a list.
#[derive(Debug, Drop)]
pub struct DueEntries {
    items: Vec<DueEntry>,
}

impl Model for DueEntries {
    ghost use Rattle.std.specs.Prelude.{List};
    ghost use Rattle.frame_wire.specs.declared.store_answer.DueEntry.{DueEntry};

    ghost Value = { List DueEntry };

    ghost view = { λ a. a.items.items };
}

impl DueEntries {
    ghost use Rattle.std.specs.Prelude.{◌≡◌};

    /// The entries in this vector, in its order. It takes no memory.
    pub fn from_vec(items: Vec<DueEntry>) -> DueEntries
        ensures { result ≡ items.items }
    {
        DueEntries { items }
    }

    /// The entries.
    pub fn as_slice(&self) -> &[DueEntry]
        ensures { result.now ≡ self.now }
    {
        self.items.as_slice()
    }

    /// The vector of the entries. It takes no memory.
    pub fn into_vec(self) -> Vec<DueEntry>
        ensures { result.items ≡ self }
    {
        let DueEntries { items } = self;
        items
    }
}

/// What the store answers to a command.
#[derive(Debug, Drop)]
pub enum StoreAnswer {
    /// To a Boot: the boot that was drawn, from 1 to 2^62.
    Booted {
        boot: u64,
    },
    /// It is done. `existed` is false only if a reminder to be removed wasn't there.
    Done {
        existed: bool,
    },
    /// The value under the key.
    Value {
        value: StateValue,
    },
    /// There is nothing under the key or the name.
    NotThere,
    /// The texts of the reminder, as they were given, and what its callback is given.
    ReminderIs {
        due: ReminderText,
        period: ReminderText,
        ttl: ReminderText,
        payload: Option<ReminderPayload>,
    },
    /// The reminders that are due; at most 65,535 are sent.
    DueList {
        entries: DueEntries,
    },
    /// To a Fired: when the reminder fires next.
    NextIs {
        next: Next,
    },
    /// The command was refused.
    Refused {
        refusal: StoreRefusal,
    },
}
