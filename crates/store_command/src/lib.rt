// The command `store`: its two disks, its port, and the store over them as a server.
//
// Promise: it asks its host for nothing but its own two paths and its address, gives back what it was given, and ends for
// a fault of a disk or a port only if the host's count of such faults rose (`specs/Commands`). What it does to the disks is
// one legal history of the store's steps from what they told at their opening to what they tell when they are given back,
// or a refusal with its cause; a crash at any moment of it leaves what was acknowledged, perhaps with the one command or
// batch under way (`specs/Runs`). Depends on `store_server`, `store_core`, `server_ports` and `command_words`.
#![tactic(auto)]

mod back;
mod command;
mod ends;
mod serving;

pub use command::{StoreEnd, run_store};
