// Copies of hosts, in byte order of node.
ghost use Rattle.std.specs.Prelude.{◌≡◌, [], None, IfOk, IsPermutation, IsSorted};
ghost use Rattle.place_table.specs.Hosts.{node_cmp, same_node_fault};
ghost use Rattle.place_table.specs.Tables.{IsNodeSorted};

use crate::host::HostInfo;
use actor_names::OutOfMemory;
use std::alloc::Global;

// Equal hosts in the same order.
pub(crate) fn copy_hosts(alloc: Global, hosts: &[HostInfo]) -> Result<Vec<HostInfo>, OutOfMemory>
    ensures { IfOk result (λ v. v.items ≡ hosts.now) }
{
    let mut copies = Vec::with_capacity(alloc, hosts.len())?;
    for host in hosts {
        copies.push(host.copy(alloc)?)?;
    }
    Ok(copies)
}

// Sorts hosts in byte order of node.
fn sort_hosts(hosts: &mut Vec<HostInfo>)
    ensures same { IsPermutation hosts.old.items hosts.new.items }
    ensures sorted { IsSorted node_cmp hosts.new.items }
{
    hosts.sort_unstable_by(|a, b| a.member.node.cmp(&b.member.node));
}

// Equal hosts of distinct nodes, in byte order of node.
pub(crate) fn sorted_hosts(alloc: Global, hosts: &[HostInfo]) -> Result<Vec<HostInfo>, OutOfMemory>
    requires { same_node_fault [] hosts.now ≡ None }
    ensures same { IfOk result (λ v. IsPermutation hosts.now v.items) }
    ensures order { IfOk result (λ v. IsNodeSorted v.items) }
{
    let mut copies = copy_hosts(alloc, hosts)?;
    sort_hosts(&mut copies);
    Ok(copies)
}
