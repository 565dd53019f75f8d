// What a turn of a sidecar needs.
use crate::node::{Seats, SidecarNode};
use actor_ports::Clock;
use std::alloc::Global;
use std::sync::Wait;

/// What a request to a sidecar needs, and any other turn that steps at its gates: one value that is lent from call to call.
/// All threads of a sidecar share its node; the rest is this thread's own. A turn lends it, and gives nothing of it away.
#[derive(Drop)]
pub struct Desk<'a, R: Wait, L: Drop, K: Clock> {
    /// What waits at gates.
    pub rt: &'a R,
    /// What gives memory.
    pub alloc: Global,
    /// The gates, and the host whose they are.
    pub node: &'a SidecarNode,
    /// Seats at all gates of the node.
    pub seats: Seats,
    /// What is called: the application, other sidecars, the store.
    pub links: L,
    /// What shows the moment.
    pub clock: K,
}
