// What is registered as a reminder.
use lists_and_limits::{Bytes, Text};
use schedule_text::Schedule;
use std::alloc::Global;

/// A text that a reminder carries as it was given.
pub type ReminderText = Text;

/// The bytes that a reminder carries.
pub type ReminderPayload = Bytes;

/// A reminder: when it fires, and what its callback is given. The texts are kept as they were given, and may be empty.
/// Once a reminder is kept, its schedule begins at its next moment, with the firings that are left from it on.
#[derive(Debug, Drop)]
pub struct Reminder {
    /// When it fires.
    pub schedule: Schedule,
    /// The text that says when it is due.
    pub due: ReminderText,
    /// The text of its period.
    pub period: ReminderText,
    /// The text that says how long it lives.
    pub ttl: ReminderText,
    /// What the callback is given.
    pub payload: Option<ReminderPayload>,
}

/// A reminder with this schedule that carries nothing.
pub(crate) fn bare_reminder(alloc: Global, schedule: Schedule) -> Reminder {
    Reminder {
        schedule,
        due: ReminderText::from_string(String::new(alloc)),
        period: ReminderText::from_string(String::new(alloc)),
        ttl: ReminderText::from_string(String::new(alloc)),
        payload: None,
    }
}
