// A link to the placement.
use actor_names::Address;
use actor_ports::Dial;
use std::marker::Model;

/// A link that was dialled at this address, as clauses see it.
#[derive(Drop)]
pub(crate) struct PlacementLink<N: Dial> {
    pub(crate) link: N::Link,
    pub(crate) at: Address,
}

impl<N: Dial> Model for PlacementLink<N> {
    ghost use Rattle.actor_names.specs.declared.address.Address.{Address};
    ghost use Rattle.exchanges.specs.Replies.{place_at};
    ghost use Rattle.sidecar_server.specs.Links.{IsLinkTo};

    ghost Value = { Address };

    ghost view = { λ l. l.at };

    ghost invariant = { λ l. IsLinkTo N.dialled N.Link.read_traffic (place_at l.at) l.link };
}
