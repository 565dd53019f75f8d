// Timers of actors: which are registered, which is due next, and when each fires again.
//
// Promise: a book is seen as a count of the numbers drawn and a list of timers in order of key and name, and each
// call changes it as `specs/Book` defines. As a machine (`specs/Machine`) it can be put behind a gate. Depends on
// `state_machine`, `search_tree`, `actor_names`, `lists_and_limits` and `schedule_text`.
#![tactic(auto)]

mod book;
mod entry;
mod error;
mod event;
mod law;
mod machine;
mod order;
mod shelf;
mod soonest;
mod standing;
mod text;
mod timer;
mod timers;

pub use book::{MOST_TIMERS, TimerBook};
pub use entry::{DueTimer, TimerEntry};
pub use error::TimerError;
pub use event::{TimerEvent, TimerReply};
pub use law::timer_law;
pub use text::TimerText;
pub use timer::Timer;
