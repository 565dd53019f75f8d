// Equal copies of what a placement keeps, each with reserved room.
ghost use Rattle.std.specs.Prelude.{◌≡◌, ◌≤◌, IfOk, vec_capacity};

use crate::marks::Mark;
use actor_names::OutOfMemory;
use place_table::HostInfo;
use std::alloc::Global;

/// Equal hosts, with room for `capacity` of them.
pub(crate) fn copy_hosts(
    alloc: Global,
    hosts: &[HostInfo],
    capacity: usize,
) -> Result<Vec<HostInfo>, OutOfMemory>
    ensures items { IfOk result (λ v. v.items ≡ hosts.now) }
    ensures capacity { IfOk result (λ v. capacity ≤ vec_capacity v) }
{
    let mut items = Vec::with_capacity(alloc, capacity)?;
    for host in hosts.iter() {
        items.push(host.copy(alloc)?)?;
    }
    Ok(items)
}

/// An equal host, if there is one.
pub fn copy_option(alloc: Global, host: &Option<HostInfo>) -> Result<Option<HostInfo>, OutOfMemory>
    ensures { IfOk result (λ copy. copy ≡ host.now) }
{
    match host {
        Some(host) => {
            let copy = host.copy(alloc)?;
            Ok(Some(copy))
        }
        None => Ok(None),
    }
}

/// Equal spare copies, with room for `capacity` of them.
pub(crate) fn copy_spares(
    alloc: Global,
    spares: &[Option<HostInfo>],
    capacity: usize,
) -> Result<Vec<Option<HostInfo>>, OutOfMemory>
    ensures items { IfOk result (λ v. v.items ≡ spares.now) }
    ensures capacity { IfOk result (λ v. capacity ≤ vec_capacity v) }
{
    let mut items = Vec::with_capacity(alloc, capacity)?;
    for spare in spares.iter() {
        items.push(copy_option(alloc, spare)?)?;
    }
    Ok(items)
}

/// Equal marks, with room for `capacity` of them.
pub(crate) fn copy_marks(
    alloc: Global,
    marks: &[Mark],
    capacity: usize,
) -> Result<Vec<Mark>, OutOfMemory>
    ensures items { IfOk result (λ v. v.items ≡ marks.now) }
    ensures capacity { IfOk result (λ v. capacity ≤ vec_capacity v) }
{
    let mut items = Vec::with_capacity(alloc, capacity)?;
    items.extend_from_slice(marks)?;
    Ok(items)
}
