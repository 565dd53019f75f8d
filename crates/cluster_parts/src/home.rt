// Where members start.
ghost use Rattle.std.specs.Prelude.{◌≡◌};
ghost use Rattle.cluster_parts.specs.Layout.{home_of};

use actor_names::{Member, Node, Space};

/// A node of a space, in which members start.
#[derive(Clone, Copy, PartialEq, Eq)]
pub(crate) struct Home {
    pub(crate) space: Space,
    pub(crate) node: Node,
}

/// The home of a member.
pub(crate) fn home_of(member: &Member) -> Home
    ensures { result ≡ home_of member.now }
{
    Home {
        space: member.space,
        node: member.node,
    }
}
