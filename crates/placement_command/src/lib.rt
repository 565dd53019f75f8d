// The command `placement`: its disk, its ports, and the placement over them as a server.
//
// Promise: it asks its host for nothing but its own path and addresses, gives back what it was given, and ends for a fault
// of a disk or a port only if the host's count of such faults rose (`specs/Commands`), or, with a standby, if that wasn't
// reached, or its link or an answer of it failed (`specs/Mirrors`). What it does to the disk is one legal history of the
// node's steps from what it told at its opening to what it tells when it is given back, or a refusal with its cause; on the
// records of a run, a crash at any moment of it leaves the state before or after the step (`specs/Runs`). Depends on
// `placement_server`, `placement_node`, `standby_core`, `server_ports` and `command_words`.
#![tactic(auto)]

mod alone;
mod back;
mod command;
mod ends;
mod mirrored;
mod serving;

pub use command::{PlacementEnd, run_placement};
