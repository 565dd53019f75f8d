// The reminders of actors: which are kept, which are due, and when each fires again.
//
// Promise: the records are a list in order of actor and name, each once, and each call changes it as
// `specs/Reminders` says; those that are due are given in order of their moments. After `reserve` a `put` can't fail.
// It depends on `search_tree`, `schedule_text`, `actor_names` and `lists_and_limits`.
#![tactic(auto)]

mod error;
mod filed;
mod filing;
mod fresh;
mod law;
mod reminder;
mod row;
mod rows;
mod standing;

pub use error::FiredError;
pub use law::reminder_law;
pub use reminder::{Reminder, ReminderPayload, ReminderText};
pub use row::{DueKey, ReminderRow};
pub use rows::ReminderRows;
