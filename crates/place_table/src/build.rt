// The points of the hosts of a table, hashed once for each host, and kept in order for each type.
ghost use Rattle.std.specs.Prelude.{◌≡◌, ◌<◌, ◌++◌, ℕ, List, [], if◌then◌else◌, true, All, map, length, IfOk, OnOk};
ghost use Rattle.std.specs.List.{list_any};
ghost use Rattle.std.specs.Str.{bytes_eq};
ghost use Rattle.place_table.specs.Hosts.{node_of, serves, node_places};
ghost use Rattle.place_table.specs.Tables.{slot_at, places_of, row_items, is_known, kept_slots, IsNodeSorted, IsListOf, IsRingOf};

use crate::hash::point_place;
use crate::host::HostInfo;
use crate::slots::sort_slots;
use crate::table::{Slot, TypeRing};
use actor_names::{ActorType, Node, OutOfMemory};
use std::alloc::Global;

// The places of the 100 points of a node.
#[tactic(auto, unfolding(crate::specs::Hosts::node_places))]
fn node_places(alloc: Global, node: &Node) -> Result<Vec<u64>, OutOfMemory>
    ensures { IfOk result (λ v. v.items ≡ node_places node.now) }
{
    let mut places = Vec::with_capacity(alloc, 100)?;
    for i in 0..100 {
        places.push(point_place(node, i))?;
    }
    Ok(places)
}

// The places of the points of each host.
pub(crate) fn all_places(alloc: Global, hosts: &[HostInfo]) -> Result<Vec<Vec<u64>>, OutOfMemory>
    ensures { IfOk result (λ v. map row_items v.items ≡ map places_of hosts.now) }
{
    let mut rows = Vec::with_capacity(alloc, hosts.len())?;
    for host in hosts {
        rows.push(node_places(alloc, &host.member.node)?)?;
    }
    Ok(rows)
}

// Tests whether a host serves the type.
fn serves(host: &HostInfo, kind: &ActorType) -> bool
    ensures { result ≡ serves host.now kind.now }
{
    host.kinds.as_slice().iter().any(|k| k == kind)
}

// Adds the points of a host.
fn push_points(slots: &mut Vec<Slot>, places: &[u64], host: usize) -> Result<(), OutOfMemory>
    ensures { OnOk result (slots.new.items ≡ slots.old.items ++ map (slot_at host) places.now) }
{
    for place in places {
        slots.push(Slot {
            place: *place,
            host,
        })?;
    }
    Ok(())
}

// Adds the points of a host if it serves the type.
fn push_host(
    slots: &mut Vec<Slot>,
    host: &HostInfo,
    number: usize,
    places: &[u64],
    kind: &ActorType,
) -> Result<(), OutOfMemory>
    ensures { OnOk result (slots.new.items ≡ slots.old.items ++ (if serves host.now kind.now then map (slot_at number) places.now else [])) }
{
    if serves(host, kind) {
        push_points(slots, places, number)?;
    }
    Ok(())
}

// The points of the hosts that serve the type, in the order of the hosts.
fn points_of(
    alloc: Global,
    hosts: &[HostInfo],
    rows: &[Vec<u64>],
    kind: &ActorType,
) -> Result<Vec<Slot>, OutOfMemory>
    requires { map row_items rows.now ≡ map places_of hosts.now }
    ensures { IfOk result (λ v. IsListOf hosts.now kind.now v.items) }
{
    let mut slots = Vec::new(alloc);
    for i in 0..hosts.len() {
        push_host(&mut slots, &hosts[i], i, rows[i].as_slice(), kind)?;
    }
    Ok(slots)
}

// The points of the hosts that serve the type, in order.
fn ring_of(
    alloc: Global,
    hosts: &[HostInfo],
    rows: &[Vec<u64>],
    kind: &ActorType,
) -> Result<Vec<Slot>, OutOfMemory>
    requires places { map row_items rows.now ≡ map places_of hosts.now }
    requires order { IsNodeSorted hosts.now }
    ensures { IfOk result (λ v. IsRingOf hosts.now kind.now v.items) }
{
    let mut slots = points_of(alloc, hosts, rows, kind)?;
    sort_slots(&mut slots);
    Ok(slots)
}

// Tests whether the points of the type are kept.
fn is_known(rings: &[TypeRing], kind: &ActorType) -> bool
    ensures { result ≡ is_known kind.now rings.now }
{
    rings.iter().any(|ring| ring.kind == *kind)
}

// Keeps the points of the type, unless they are kept already.
fn add_ring(
    alloc: Global,
    rings: &mut Vec<TypeRing>,
    hosts: &[HostInfo],
    rows: &[Vec<u64>],
    kind: &ActorType,
) -> Result<(), OutOfMemory>
    requires places { map row_items rows.now ≡ map places_of hosts.now }
    requires order { IsNodeSorted hosts.now }
    requires rings { All (λ r. IsRingOf hosts.now r.kind r.slots.items) rings.old.items }
    ensures rings { OnOk result (All (λ r. IsRingOf hosts.now r.kind r.slots.items) rings.new.items) }
    ensures known { OnOk result (is_known kind.now rings.new.items ≡ true) }
    ensures kept { OnOk result ((k : List ℕ) → is_known k rings.old.items ≡ true → is_known k rings.new.items ≡ true) }
{
    if is_known(rings.as_slice(), kind) {
        return Ok(());
    }
    let slots = ring_of(alloc, hosts, rows, kind)?;
    rings.push(TypeRing {
        kind: kind.copy(alloc)?,
        slots,
    })?;
    Ok(())
}

// Keeps the points of each of the types.
fn add_rings(
    alloc: Global,
    rings: &mut Vec<TypeRing>,
    hosts: &[HostInfo],
    rows: &[Vec<u64>],
    kinds: &[ActorType],
) -> Result<(), OutOfMemory>
    requires places { map row_items rows.now ≡ map places_of hosts.now }
    requires order { IsNodeSorted hosts.now }
    requires rings { All (λ r. IsRingOf hosts.now r.kind r.slots.items) rings.old.items }
    ensures rings { OnOk result (All (λ r. IsRingOf hosts.now r.kind r.slots.items) rings.new.items) }
    ensures known { OnOk result ((k : List ℕ) → list_any (λ x. bytes_eq x k) kinds.now ≡ true → is_known k rings.new.items ≡ true) }
    ensures kept { OnOk result ((k : List ℕ) → is_known k rings.old.items ≡ true → is_known k rings.new.items ≡ true) }
{
    for kind in kinds {
        add_ring(alloc, rings, hosts, rows, kind)?;
    }
    Ok(())
}

// The points of each type that a host serves.
pub(crate) fn all_rings(
    alloc: Global,
    hosts: &[HostInfo],
    rows: &[Vec<u64>],
) -> Result<Vec<TypeRing>, OutOfMemory>
    requires places { map row_items rows.now ≡ map places_of hosts.now }
    requires order { IsNodeSorted hosts.now }
    ensures { IfOk result (λ v. (kind : List ℕ) → IsRingOf hosts.now kind (kept_slots kind v.items)) }
{
    let mut rings = Vec::new(alloc);
    for host in hosts {
        add_rings(alloc, &mut rings, hosts, rows, host.kinds.as_slice())?;
    }
    Ok(rings)
}
