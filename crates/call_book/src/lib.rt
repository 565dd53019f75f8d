// The calls that other sidecars forwarded here, so that each of them acts at most once.
//
// Promise: a book is seen as its lanes and its calls in the order in which they began, and each step changes it as
// `specs/Book` defines. In every legal history a call is answered `New` at most once, and a repeat gets the kept
// answer (`specs/Histories`). As a machine (`specs/Machine`) it can be put behind a gate. Depends on `step_gate`,
// `state_machine`, `search_tree`, `http_edge`, `actor_names` and `lists_and_limits`.
#![tactic(auto)]

mod book;
mod calls;
mod copying;
mod entry;
mod event;
mod keys;
mod lane;
mod lanes;
mod law;
mod machine;
mod row;
mod rows;
mod standing;
mod turns;

pub use book::CallBook;
pub use entry::{CallEntry, CallStage};
pub use event::{BookEvent, BookReply};
pub use lane::{CallLane, LaneName};
pub use law::call_law;
