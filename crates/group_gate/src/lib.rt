// A gate at which callers share steps. All asks that stand when the turn is free go into one step of the machine.
//
// Promise: the steps of all threads are one legal history, whose entries have a list of asks and a list of answers.
// What a caller is answered is the answer to its ask in one entry, which was added during its call; each ask stands in
// one entry, once, and no entry has an ask in the name of a place that wasn't made there (`specs/Gates`). The code keeps
// the machine and a count, never a list of entries. Depends on `step_gate`, `actor_names` and `atomic_table`.
#![tactic(auto)]

mod calls;
mod desk;
mod gate;
mod grouped;
mod hints;
mod lead;
mod opening;
mod plays;
mod seats;
mod sleep;
mod turn;
mod view;

pub use gate::{GroupGate, GroupSeat, OneGroupHistory, Place};
pub use grouped::Grouped;
pub use step_gate::Spent;
pub use view::{Asked, Core, Done, GroupEntry, Held, Sits, Turn, View};
