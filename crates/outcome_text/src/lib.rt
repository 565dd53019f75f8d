// The lines that the outcomes of a script print.
//
// Promise: an outcome's line is that of `specs/Outcomes`, and it comes whole or not at all; only the adding of lines may
// run out of memory. Depends on `world_events`, `place_table`, `round_core`, `actor_names` and `itoa`.
#![tactic(auto)]

mod line_buffer;
mod members;
mod names;
mod outcomes;
mod restarts;
mod transcript;
mod turn_outcomes;

pub use outcomes::outcome_line;
pub use transcript::Transcript;
