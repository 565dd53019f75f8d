// The top call: what the words of the command line ask for.
//
// Promise: `run` does what its words read as. The commands that need no thread are those of `plain_commands`, with their
// clauses; over every script the headline holds. A server asks its host for nothing but its own paths and addresses,
// gives back what it was given, and ends for a fault only where the host's count of such faults rose; over a host that
// tells of its disks it says what came of them (`specs/Ran`). Depends on `plain_commands`, `placement_command`,
// `store_command`, `sidecar_command`, `standby_command`, `command_words`, `server_ports` and `actor_ports`.
#![tactic(auto)]

mod server;
mod sidecar;
mod top;

pub use plain_commands::Status;
pub use server::ServerStatus;
pub use sidecar::SidecarStatus;
pub use top::{Outside, run};
