// What makes the connections of turns.
use actor_ports::Dial;

/// What makes a sidecar's connections to its application and to other sidecars. They may wait longer for a byte than one to
/// a store: an application that is given up while it works would let turns of one actor mix there.
#[derive(Drop)]
pub struct Callees<'a, A: Dial, P: Dial> {
    /// To the application.
    pub app: &'a A,
    /// To other sidecars.
    pub peers: &'a P,
}
