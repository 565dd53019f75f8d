// A gate: a lock round one machine. The steps of all threads are one history.
//
// Promise: a call makes one step on the machine's value, and no other seat steps meanwhile. Each seat knows a prefix
// of the one history of all steps, which is legal, and the entries in it that are its own (`specs/Gates`). The code
// keeps the value and a count, never a list. Depends on `state_machine`, `actor_names` and `atomic_table`.
#![tactic(auto)]

mod bells;
mod calls;
mod gate;
mod opening;
mod plays;
mod seats;
mod turn;
mod view;

pub use gate::{Gate, OneHistory, Seat, Spent};
pub use state_machine::{Machine, News};
pub use view::{HistoryEntry, Made, Turn, View};
