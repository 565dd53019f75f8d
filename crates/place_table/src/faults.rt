// Why no table is built from some hosts.
ghost use Rattle.std.specs.Prelude.{◌≡◌, [], if◌then◌else◌};
ghost use Rattle.std.specs.List.{list_any};
ghost use Rattle.std.specs.Str.{bytes_eq};
ghost use Rattle.place_table.specs.Hosts.{node_of, types_fault, same_node_fault, other_space_fault, table_fault};

use crate::error::TableError;
use crate::host::HostInfo;
use actor_names::{Node, Space};

/// The most hosts of a table.
pub const MOST_HOSTS: usize = 256;

/// The most types of a host.
pub const MOST_TYPES: usize = 32;

// The first host with too many types.
fn types_fault(hosts: &[HostInfo]) -> Option<TableError>
    ensures { result ≡ types_fault hosts.now }
{
    for host in hosts {
        let n = host.kinds.as_slice().len();
        if n > MOST_TYPES {
            return Some(TableError::TooManyTypes {
                node: host.member.node,
                n: n as u64,
            });
        }
    }
    None
}

// Tests whether a host has the node.
fn has_node(hosts: &[HostInfo], node: &Node) -> bool
    ensures { result ≡ list_any (λ e. bytes_eq (node_of e) node.now) hosts.now }
{
    hosts.iter().any(|host| host.member.node == *node)
}

// The first host whose node came before.
fn same_node_fault(hosts: &[HostInfo]) -> Option<TableError>
    ensures { result ≡ same_node_fault [] hosts.now }
{
    for i in 0..hosts.len() {
        let node = &hosts[i].member.node;
        if has_node(&hosts[..i], node) {
            return Some(TableError::SameNode { name: *node });
        }
    }
    None
}

// The first host of another space.
fn other_space_fault(space: &Space, hosts: &[HostInfo]) -> Option<TableError>
    ensures { result ≡ other_space_fault space.now hosts.now }
{
    for host in hosts {
        if host.member.space != *space {
            return Some(TableError::OtherSpace {
                node: host.member.node,
            });
        }
    }
    None
}

// Why no table of these hosts is built for the space, apart from memory.
pub(crate) fn table_fault(space: &Space, hosts: &[HostInfo]) -> Option<TableError>
    ensures { result ≡ table_fault space.now hosts.now }
{
    let n = hosts.len();
    if n > MOST_HOSTS {
        return Some(TableError::TooManyMembers { n: n as u64 });
    }
    if let Some(fault) = types_fault(hosts) {
        return Some(fault);
    }
    match same_node_fault(hosts) {
        Some(fault) => Some(fault),
        None => other_space_fault(space, hosts),
    }
}
