// The JSON bodies of the actors API: transactions, reminders and timers.
//
// Promise: a body is read as the operations, the reminder or the timer that it says, or refused with the first cause
// (`specs/Transactions`, `specs/Records`), and a reminder is told as one stated text (`specs/Told`). It depends on
// `json_text`, `frame_wire`, `timer_book`, `reminder_rows`, `state_rows`, `schedule_text` and `lists_and_limits`.
#![tactic(auto)]

mod body;
mod error;
mod fault;
mod record;
mod told;
mod transaction;

pub use error::BodyError;
pub use record::{read_reminder, read_timer};
pub use told::write_reminder;
pub use transaction::read_ops;
