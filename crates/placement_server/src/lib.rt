// The placement as a server: its sessions in threads, its state over HTTP, a Tick every second, and a Look behind it, by
// which it says in a log what has changed.
//
// Promise: what all threads did is one legal history of the node's steps, from the node that was given to the one that is
// handed back; the server ends for a fault of a port only if one of its ports has one. Depends on `placement_sessions`,
// `server_ports`, `placement_node`, `step_gate`, `event_log` and `actor_ports`.
#![tactic(auto)]

mod pass;
mod server;
mod service;
mod session;
mod sight;

pub use server::{PlacementServed, serve_placement, serve_placement_and_state};
