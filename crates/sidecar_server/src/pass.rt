// What a thread of a sidecar has to itself.
use crate::link::PlacementLink;
use crate::watch::Watch;
use actor_ports::{Clock, Dial};
use exchanges::Links;
use placement_beats::PlacementBook;
use sidecar_node::Seats;
use step_gate::Seat;

/// What a thread of a sidecar has to itself: its seats at the gates of the parts and timers and at that of the watch, what it
/// calls, a dialler for the placement and to wake the ports with, a clock, and one by which silence is measured. The thread
/// that speaks with the placement alone keeps the book of that and the link to it, and at which of its addresses it is
/// dialled. The types are those of the diallers of the application, of other sidecars, and of the store and the placement.
#[derive(Drop)]
pub(crate) struct Pass<A: Dial, P: Dial, N: Dial, K: Clock> {
    pub(crate) seats: Seats,
    pub(crate) watch: Seat<Watch<N, K>>,
    pub(crate) links: Links<A, P, N>,
    pub(crate) net: N,
    pub(crate) clock: K,
    pub(crate) steady: K,
    pub(crate) book: PlacementBook,
    pub(crate) link: Option<PlacementLink<N>>,
    pub(crate) is_second: bool,
}
