// What a thread of the server has to itself.
use actor_ports::{Clock, Dial};
use disk_model::Disk;
use fence_rows::Fenced;
use group_gate::GroupSeat;

/// What a thread of the server has to itself: its seat at the gate, a clock, a dialler to wake the server with, and the
/// least length of a file that is to be compacted, in bytes. Only the thread that makes the turns changes that length.
#[derive(Drop)]
pub struct Pass<D: Disk, K: Clock, N: Dial> {
    pub(crate) seat: GroupSeat<Fenced<D>>,
    pub(crate) clock: K,
    pub(crate) net: N,
    pub(crate) least: u64,
}
