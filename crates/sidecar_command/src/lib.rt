// The command `sidecar`: how it starts, its two ports, and the sidecar behind them as a server.
//
// Promise: it asks its host for nothing but the addresses of its words, and gives back each port; it ends for a port only if
// a count of faults rose, and says that it had to stop only for a sound cause (`specs/Commands`). What it prints is
// `end_text` (`specs/Telling`). Depends on `sidecar_server`, `sidecar_start`, `sidecar_node`, `exchanges`,
// `server_ports`, `command_words`, `round_core` and `actor_ports`.
#![tactic(auto)]

mod callees;
mod command;
mod ends;
mod serving;
mod telling;

pub use callees::Callees;
pub use command::run_sidecar;
pub use ends::SidecarEnd;
pub use telling::push_end;
