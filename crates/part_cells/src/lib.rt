// The cells of a part in slots, with a map from keys to slots, in order of key, and an index from calls to slots.
//
// Promise: `Cells` is seen as the list of its cells in order of key, and each of its changes is a change of that list,
// as defined in `specs/Cells` of `part_model` and in `specs/Slots`. The index has one entry for each call that is open or
// waits, and no other. Depends on `part_model`, `turn_core`, `place_table`, `actor_names`, `lists_and_limits` and `slab`.
#![tactic(auto)]

mod adding;
mod asking;
mod call_slots;
mod cells;
mod closing;
mod draining;
mod dropping;
mod ending;
mod guesses;
mod hashed_cell;
mod holding;
mod opening;
mod passes;
mod polling;
mod stopping;

pub use cells::Cells;
pub use passes::{CellNumber, CellTest};
