// Which host takes an actor when a host is added.
ghost use Rattle.std.specs.Prelude.{◌≡◌, ◌≢◌, ◌↔◌, ◌∷◌, ◌++◌, [], None, IfOk, OnOk, IsTrue, option_map};
ghost use Rattle.std.specs.Option.{option_copied};
ghost use Rattle.place_table.specs.Hosts.{node_of, given_owner, table_fault, RefusesTables};

use crate::error::TableError;
use crate::host::HostInfo;
use crate::sort::copy_hosts;
use crate::table::{Table, build_table};
use actor_names::{ActorKey, OutOfMemory, Space};
use std::alloc::Global;

// Equal hosts, and one more.
fn larger_hosts(
    alloc: Global,
    hosts: &[HostInfo],
    more: &HostInfo,
) -> Result<Vec<HostInfo>, OutOfMemory>
    ensures { IfOk result (λ v. v.items ≡ hosts.now ++ more.now ∷ []) }
{
    let mut both = copy_hosts(alloc, hosts)?;
    both.push(more.copy(alloc)?)?;
    Ok(both)
}

// Tests whether two hosts have the same node, or both are None.
fn is_same_node(first: Option<&HostInfo>, second: Option<&HostInfo>) -> bool
    ensures { IsTrue result ↔ (option_map node_of (option_copied first.entry) ≡ option_map node_of (option_copied second.entry)) }
{
    match (first, second) {
        (None, None) => true,
        (Some(a), Some(b)) => a.member.node == b.member.node,
        _ => false,
    }
}

// Tests whether the tables give the actor to hosts of different nodes.
fn has_moved(before: &Table, after: &Table, key: &ActorKey) -> bool
    ensures { IsTrue result ↔ (given_owner after.now.space after.now.hosts key.now ≢ given_owner before.now.space before.now.hosts key.now) }
{
    !is_same_node(after.owner_uncounted(key), before.owner_uncounted(key))
}

/// Whether the owner of the actor changes if the host `more` is added to the hosts of a space, in tables of version 1;
/// if so, the new owner is `more`. A fault is that of the smaller table, or else of the larger one.
pub fn moved_law(
    alloc: Global,
    space: &Space,
    hosts: &[HostInfo],
    more: &HostInfo,
    key: &ActorKey,
) -> Result<bool, TableError>
    ensures moved { IfOk result (λ moved. IsTrue moved ↔ (given_owner space.now (hosts.now ++ more.now ∷ []) key.now ≢ given_owner space.now hosts.now key.now)) }
    ensures law { IfOk result (λ moved. IsTrue moved → given_owner space.now (hosts.now ++ more.now ∷ []) key.now ≡ Some (node_of more.now)) }
    ensures smaller { OnOk result (table_fault space.now hosts.now ≡ None) }
    ensures larger { OnOk result (table_fault space.now (hosts.now ++ more.now ∷ []) ≡ None) }
    ensures refused { RefusesTables (table_fault space.now hosts.now) (table_fault space.now (hosts.now ++ more.now ∷ [])) result }
{
    let before = build_table(alloc, space, 1, hosts)?;
    let both = larger_hosts(alloc, hosts, more)?;
    let after = build_table(alloc, space, 1, both.as_slice())?;
    Ok(has_moved(&before, &after, key))
}
