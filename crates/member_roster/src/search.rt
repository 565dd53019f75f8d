// Binary search among nodes in byte order.
ghost use Rattle.std.specs.Prelude.{◌≡◌, length};
ghost use Rattle.std.specs.List.Sorted.{IsSearchInRange};
ghost use Rattle.member_roster.specs.Places.{place_by, Ascends, host_node};

use actor_names::Node;
use place_table::HostInfo;

/// The index of this node's host, or the index at which it would be inserted.
pub(crate) fn host_place(hosts: &[HostInfo], node: &Node) -> Result<usize, usize>
    requires { Ascends host_node hosts.now }
    ensures place { result ≡ place_by host_node node.now hosts.now }
    ensures within { IsSearchInRange result (length hosts.now) }
{
    hosts.binary_search_by(|host| host.member.node.cmp(node))
}

/// The same; looks at `near` first, where the host may well be.
pub(crate) fn host_place_near(hosts: &[HostInfo], node: &Node, near: usize) -> Result<usize, usize>
    requires { Ascends host_node hosts.now }
    ensures place { result ≡ place_by host_node node.now hosts.now }
    ensures within { IsSearchInRange result (length hosts.now) }
{
    if near < hosts.len() && hosts[near].member.node == *node {
        return Ok(near);
    }
    host_place(hosts, node)
}
