// The store as a server: its sessions, each in a thread, and a compaction where the file has grown.
//
// Promise: each frame that is sent to the store is asked once at a gate, at the place of its connection, and what is written
// are the spellings of the answers, in order (`specs/Commands`); the answer to each command may be sent (`specs/Laws`). What
// all threads did is one legal history of the store's steps, each by what was asked together, from the store that was given
// to the one that is handed back; the server ends for a fault of its port only if the port has one. Depends on
// `frame_session`, `server_ports`, `event_log`, `store_core`, `group_gate`, `frame_wire` and `actor_ports`.
#![tactic(auto)]

mod compacting;
mod crossing;
mod frames;
mod law;
mod pass;
mod server;
mod service;
mod session;

pub use frames::{StoreFrames, store_session};
pub use law::store_serve_law;
pub use server::{StoreServed, serve_store};
