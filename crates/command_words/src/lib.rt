// The words of the command line.
//
// Promise: `read_words` gives the command with all that the words say if they have a reading (`specs/Reading`), and
// refuses only words that have none; else it ran out of memory. Depends on actor_names (numbers, names, addresses) and
// clap.
#![tactic(auto)]

mod count;
mod error;
mod form;
mod law;
mod matches;
mod meaning;
mod options;
mod reading;
mod server;
mod sidecar;

pub use error::WordsError;
pub use law::seating_law;
pub use reading::{CommandWords, DrillWords, ScheduleWords, read_words};
pub use server::{PlacementWords, ServerWords, StandbyWords};
pub use sidecar::SidecarWords;
