// A sidecar as a server: its two ports, its turns with the placement, its turns by the clock, and a watch over all.
//
// Promise: each thread has seats of its own at the gates of the sidecar's parts, and no work beside the connections makes an
// entry Lock, Update or Unlock but a turn with the placement (`specs/Works`); the server stops of its own accord only if its
// lease has ended by its clocks, or the placement has refused the sidecar in a turn (`specs/Causes`); at the end every part
// is given StopPart (`specs/Stopped`); it ends for a fault of a port only if one of its ports has one. Depends on
// `sidecar_requests`, `event_log`, `placement_beats`, `clock_turns`, `reminder_turns`, `lease_core`, `sidecar_node`, `server_ports`,
// `step_gate`, `exchanges` and `actor_ports`.
#![tactic(auto)]

mod beats;
mod clocked;
mod crossing;
mod duties;
mod link;
mod pass;
mod placements;
mod server;
mod service;
mod session;
mod telling;
mod watch;

pub use placements::Placements;
pub use server::{SidecarPlaces, SidecarServed, serve_sidecar};
pub use watch::{Parties, StopCause, Watch, WatchEvent};
