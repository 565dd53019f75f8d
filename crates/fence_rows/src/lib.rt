// The store with a fence: a write of an actor's state carries the epoch of its writer, and one below the actor's is refused.
//
// Promise: a step of a fenced store is no step of the store within, or one, with the command that `specs/Fences` defines.
// So what is acknowledged is kept as by the store, and the epoch of an actor never falls (`specs/Runs`). Commands in a
// list may share the store's syncs, each answered by what those before it leave (`specs/Together`). It depends on
// `store_core`, `group_gate`, `store_payloads`, `store_tables`, `frame_wire`, `wire_fields`, `state_rows`, `tx_journal`,
// `disk_model`, `state_machine`, `step_gate`, `actor_names` and `lists_and_limits`.
#![tactic(auto)]

mod epoch;
mod event;
mod fence;
mod fenced;
mod groups;
mod law;
mod machine;
mod operations;
mod plain;
mod refusals;
mod together;

pub use event::{FencedAnswer, FencedCommand, FencedEvent, FencedOutcome};
pub use fenced::Fenced;
pub use groups::group_law;
pub use law::fence_law;
