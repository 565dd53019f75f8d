// The commands that need no thread: the replay of a script, the moments of a schedule, a drill.
//
// Promise: `run_plain` does what its words read as. It writes what the script's replay (`specs/Replay`) or the schedule
// (`specs/Schedule`) is defined to write, ends with its status, and reports a fault or a limit only for its cause. Over
// every script the headline holds (`specs/Headline`): no actor is active on two members, and the turns of one actor
// never mix. Depends on command_words, script_text, outcome_text, solo_run, world_run, schedule_text and actor_ports.
#![tactic(auto)]

mod cluster_script;
mod drill;
mod line_end;
mod plain;
mod replay;
mod schedule;
mod script;
mod setup;
mod solo_script;
mod status;
mod text;

pub use plain::run_plain;
pub use status::Status;
