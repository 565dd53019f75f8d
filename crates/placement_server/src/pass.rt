// What a thread of the server has to itself.
use crate::sight::Sight;
use actor_ports::{Clock, Dial};
use disk_model::Disk;
use placement_node::PlacementNode;
use step_gate::Seat;

/// What a thread of the server has to itself: its seat at the gate, a clock, a dialler to wake the server with, and what it
/// has seen of the rooms, which is of use to the thread of the Ticks.
#[derive(Drop)]
pub struct Pass<D: Disk, K: Clock, N: Dial> {
    pub(crate) seat: Seat<PlacementNode<D>>,
    pub(crate) clock: K,
    pub(crate) net: N,
    pub(crate) sight: Sight,
}
