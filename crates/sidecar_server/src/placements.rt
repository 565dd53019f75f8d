// Where the placement listens.
ghost use Rattle.std.specs.Prelude.{◌≡◌, IsTrue};
ghost use Rattle.sidecar_server.specs.Links.{IsOneOf, are_same_placements, next_address};

use actor_names::Address;

/// Where the placement listens: at the first address or, where its standby has taken its place, at the second.
#[derive(Clone, Copy)]
pub struct Placements {
    pub first: Address,
    pub second: Option<Address>,
}

/// The address that is dialled next: the second one, if there is one and its turn has come.
pub(crate) fn next_address(placements: Placements, is_second: bool) -> Address
    ensures is { result ≡ next_address placements is_second }
    ensures one_of { IsOneOf placements result }
{
    match placements.second {
        Some(second) => { if is_second { second } else { placements.first } }
        None => placements.first,
    }
}

/// Whether an address is one of the two.
pub(crate) fn is_one_of(placements: Placements, at: Address) -> bool
    ensures { IsTrue result → IsOneOf placements at }
{
    if at == placements.first {
        return true;
    }
    match placements.second {
        Some(second) => at == second,
        None => false,
    }
}

/// Whether the two are the same.
pub(crate) fn are_same_placements(a: Placements, b: Placements) -> bool
    ensures { result ≡ are_same_placements a b }
{
    if a.first != b.first {
        return false;
    }
    match (a.second, b.second) {
        (Some(a), Some(b)) => a == b,
        (None, None) => true,
        _ => false,
    }
}
