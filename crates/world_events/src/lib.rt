// What happens in the world of a script, what comes of it, and why an event is refused.
//
// Only types, shared by the worlds, the reader of scripts and the printer of outcomes. A solo script's events borrow
// their keys and chains from the script; those of a cluster own theirs. Depends on `round_core`, `part_model` and the
// crates below them for what placements and parts say.
#![tactic(auto)]

mod error;
mod event;
mod outcome;
mod settings;
mod versions;

pub use error::WorldError;
pub use event::{SoloEvent, WorldEvent};
pub use outcome::{Outcome, TurnOutcome};
pub use settings::WorldSettings;
pub use versions::Versions;
