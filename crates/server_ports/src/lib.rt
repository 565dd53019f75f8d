// The outside of a server: what opens disks and binds ports and takes them back, and the connections of a port, or of two,
// each served in a thread of its own, with work beside them.
//
// Promise: each call of a host answers a fault only if its count of faults rose; a disk or port that is given back counts
// as one more fault exactly if it has failed (`specs/Hosts`). The form in memory reports what it was asked for, and its
// disks as they were given out and given back; the real one opens files and binds TCP ports, and reports counts. Each thread
// has a pass of its own that the service admits; a server ends for a fault of its port only if the port has one, and all
// threads have ended before the call returns.
// Depends on `actor_ports`, `disk_model` and `actor_names`.
#![tactic(auto)]

mod accept;
mod disk;
mod duty;
mod ending;
mod host;
mod memory;
mod port;
mod server;
mod service;
mod system;
mod works;

pub use accept::ServerEnd;
pub use disk::HostDisk;
pub use duty::{Duty, SHORT_PAUSE_MS};
pub use ending::{Ending, pause_for};
pub use host::Host;
pub use memory::MemHost;
pub use port::HostPort;
pub use server::{serve_port, serve_ports};
pub use service::Service;
pub use system::SystemHost;
