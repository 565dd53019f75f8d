// The model of a part of a sidecar's actors: its events and replies, its state and each of its steps, what its receipts
// say and justify, and what holds over every list of events.
//
// Promise: the laws (`part_law`, `part_turns_law`), for whatever owners the tables give to actors. The code that meets
// the model is `part_core`, over the cells of `part_cells`. Depends on `turn_core`, `place_table`, `actor_names` and
// `lists_and_limits`.
#![tactic(auto)]

mod ack;
mod actor_cell;
mod event;
mod law;
mod settings;
mod stage;

pub use ack::Ack;
pub use actor_cell::ActorCell;
pub use event::{PartEvent, Reply};
pub use law::{part_law, part_turns_law};
pub use settings::{PartSettings, TypeList, TypeSettings};
pub use stage::{SeenStage, Stage};
