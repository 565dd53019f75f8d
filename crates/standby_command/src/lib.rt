// The command `standby`: its disk, its port, and one session after the other.
//
// Promise: it asks its host for nothing but its own path and address, gives back what it was given, and ends for a fault
// of its disk or its port only if the host's count of such faults rose (`specs/Commands`). What it does to the disk is what
// its sessions do, one after the other, each by the calls that were read in it; none follows one in which the disk failed
// (`specs/Runs`). Depends on `standby_session`, `server_ports` and `command_words`.
#![tactic(auto)]

mod back;
mod command;
mod serving;

pub use command::{StandbyEnd, run_standby};
