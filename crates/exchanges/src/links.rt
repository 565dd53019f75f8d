// The links of a sidecar.
ghost use Rattle.std.specs.Prelude.{◌≡◌};

use actor_names::Address;
use actor_ports::Dial;

/// What a sidecar calls: its application, other sidecars and the store, by a dialler of its own type each, so that none can
/// stand in another's place. The count of faults of each is that of its dialler. A call that is lent these gives back each
/// link that it dialled.
#[derive(Drop)]
pub struct Links<A: Dial, P: Dial, S: Dial> {
    pub app: A,
    pub peers: P,
    pub store: S,
    pub app_at: Address,
    pub store_at: Address,
}

impl<A: Dial, P: Dial, S: Dial> Links<A, P, S> {
    /// These diallers and addresses. It takes no memory.
    pub fn new(app: A, peers: P, store: S, app_at: Address, store_at: Address) -> Links<A, P, S>
        ensures app { result.app ≡ app }
        ensures peers { result.peers ≡ peers }
        ensures store { result.store ≡ store }
        ensures app_at { result.app_at ≡ app_at }
        ensures store_at { result.store_at ≡ store_at }
    {
        Links {
            app,
            peers,
            store,
            app_at,
            store_at,
        }
    }
}
