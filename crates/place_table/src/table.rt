// Placement tables.
ghost use Rattle.std.specs.Prelude.{◌≡◌, ◌↔◌, ◌<◌, ◌≤◌, ◌+◌, ◌-◌, ◌*◌, ◌^◌, ℕ, List, [], length, true, false, ◌&&◌, IsNone, None, IfSome, IfOk, OnOk, Contains, IsPermutation, option_map, option_and_then};
ghost use Rattle.std.specs.List.{list_any};
ghost use Rattle.std.specs.Str.{bytes_eq};
ghost use Rattle.std.specs.Option.{option_copied};
ghost use Rattle.place_table.specs.Hosts.{node_of, serves, ring_points, key_place, host_of, owner_of, given_owner, table_owner, table_fault, types_fault, same_node_fault, other_space_fault, BuildsTable};
ghost use Rattle.place_table.specs.Ring.{IsOwner};
ghost use Rattle.place_table.specs.Tables.{IsNodeSorted, IsTableKept};
ghost use Rattle.place_table.specs.declared.point.Point.{Point};

use crate::build::{all_places, all_rings};
use crate::error::TableError;
use crate::faults::table_fault;
use crate::hash::key_hash;
use crate::host::HostInfo;
use crate::slots::{owner_slot, ring_slots};
use crate::sort::sorted_hosts;
use crate::steps::Steps;
use actor_names::{ActorKey, ActorType, OutOfMemory, Space};
use std::alloc::Global;
use std::marker::{Brand, Model};
use std::sync::Arc;
use std::sync::ledger::{Blank, Ledger};

/// A point in 16 bytes: its place, and the number of its host in the table.
#[derive(Clone, Copy)]
pub(crate) struct Slot {
    pub(crate) place: u64,
    pub(crate) host: usize,
}

/// The points of one type, in order of place, then in byte order of node.
#[derive(Drop)]
pub(crate) struct TypeRing {
    pub(crate) kind: ActorType,
    pub(crate) slots: Vec<Slot>,
}

// What the copies of a table share: its hosts, and the points of each type.
#[derive(Drop)]
pub(crate) struct Kept {
    hosts: Vec<HostInfo>,
    rings: Vec<TypeRing>,
}

/// The hosts of one space in byte order of node, at one version. Its copies share the hosts and their points, also
/// in other threads.
#[derive(Drop)]
pub struct Table {
    space: Space,
    version: u64,
    kept: Arc<Kept, Global>,
}

impl Model for Table {
    ghost use Rattle.place_table.specs.Hosts.{PlacementTable};
    ghost use Rattle.place_table.specs.Tables.{IsTableKept};

    ghost Value = { PlacementTable };

    ghost view = { λ a. record { space = a.space; version = a.version; hosts = a.kept.value.hosts.items } };

    ghost invariant = { λ a. IsTableKept a.kept.value.hosts.items a.kept.value.rings.items };
}

impl Table {
    /// The table's space.
    pub fn space(&self) -> &Space
        ensures { result.now ≡ self.now.space }
    {
        &self.space
    }

    /// The table's version.
    pub fn version(&self) -> u64
        ensures { result ≡ self.now.version }
    {
        self.version
    }

    /// The hosts, in byte order of node.
    pub fn hosts(&self) -> &[HostInfo]
        ensures hosts { result.now ≡ self.now.hosts }
        ensures order { IsNodeSorted self.now.hosts }
    {
        let kept: &Kept = &self.kept;
        kept.hosts.as_slice()
    }

    /// The host that owns the actor; None if the actor is of another space or no host serves its type. The actor's id
    /// is hashed once, the points of its type are searched by bisection, and no memory is taken. Each point that is
    /// looked at counts as one step.
    pub fn owner<L: Ledger>(&self, key: &ActorKey, steps: &mut Steps<L>) -> Option<&HostInfo>
        ensures owner { option_copied result ≡ table_owner self.now key.now }
        ensures node { option_map node_of (option_copied result) ≡ given_owner self.now.space self.now.hosts key.now }
        ensures point { IfSome result (λ h. (p : Point) × IsOwner (ring_points self.now.hosts key.now.kind) (key_place key.now.id) p × (p.node ≡ node_of h.now)) }
        ensures among { IfSome result (λ h. Contains self.now.hosts h.now) }
        ensures space { IfSome result (λ h. bytes_eq key.now.space self.now.space ≡ true) }
        ensures none { IsNone result ↔ ((bytes_eq key.now.space self.now.space && list_any (λ h. serves h key.now.kind) self.now.hosts) ≡ false) }
        ensures counted { steps.old ≤ steps.new }
        ensures probes { 2 ^ (steps.new - steps.old) ≤ 2 * length (ring_points self.now.hosts key.now.kind) + 2 }
    {
        if key.space != self.space {
            return None;
        }
        let kept: &Kept = &self.kept;
        let place = key_hash(&key.id);
        owner_host(
            kept.hosts.as_slice(),
            kept.rings.as_slice(),
            key,
            place,
            steps,
        )
    }

    /// The host that owns the actor, for callers that don't need the count: it is looked up with a fresh counter.
    pub fn owner_uncounted(&self, key: &ActorKey) -> Option<&HostInfo>
        ensures owner { option_copied result ≡ table_owner self.now key.now }
        ensures node { option_map node_of (option_copied result) ≡ given_owner self.now.space self.now.hosts key.now }
    {
        self.owner_at(key, key_hash(&key.id))
    }

    /// The same, for callers that know the actor's place, which is the `key_hash` of its id; nothing is hashed.
    pub fn owner_at(&self, key: &ActorKey, place: u64) -> Option<&HostInfo>
        requires { place ≡ key_place key.now.id }
        ensures owner { option_copied result ≡ table_owner self.now key.now }
        ensures node { option_map node_of (option_copied result) ≡ given_owner self.now.space self.now.hosts key.now }
    {
        fresh_owner::<Brand>(self, key, place, Blank::new(1))
    }

    /// An equal table. It shares hosts and points with this one; their bytes aren't copied. It takes no memory, and
    /// fails only if the count of those that share them is full, at 2^63 - 1.
    pub fn copy(&self) -> Result<Table, OutOfMemory>
        ensures { IfOk result (λ t. t ≡ self.now) }
    {
        let kept = Arc::try_clone(&self.kept)?;
        Ok(Table {
            space: self.space,
            version: self.version,
            kept,
        })
    }
}

// The table of the hosts of the space at the version.
fn make_table(
    alloc: Global,
    space: &Space,
    version: u64,
    hosts: &[HostInfo],
) -> Result<Table, TableError>
    ensures space { IfOk result (λ t. t.space ≡ space.now) }
    ensures version { IfOk result (λ t. t.version ≡ version) }
    ensures hosts { IfOk result (λ t. IsPermutation hosts.now t.hosts) }
    ensures order { IfOk result (λ t. IsNodeSorted t.hosts) }
    ensures sound { OnOk result (table_fault space.now hosts.now ≡ None) }
    ensures refused { BuildsTable (table_fault space.now hosts.now) result }
{
    match table_fault(space, hosts) {
        Some(fault) => Err(fault),
        None => {
            let hosts = sorted_hosts(alloc, hosts)?;
            let rows = all_places(alloc, hosts.as_slice())?;
            let rings = all_rings(alloc, hosts.as_slice(), rows.as_slice())?;
            let kept = Arc::new(alloc, Kept { hosts, rings })?;
            Ok(Table {
                space: *space,
                version,
                kept,
            })
        }
    }
}

/// The table of the hosts of the space at the version, its hosts equal to the given ones and in byte order of node.
/// A fault of the hosts is reported before any memory is allocated; the points of each host are hashed once.
pub fn build_table(
    alloc: Global,
    space: &Space,
    version: u64,
    hosts: &[HostInfo],
) -> Result<Table, TableError>
    ensures space { IfOk result (λ t. t.space ≡ space.now) }
    ensures version { IfOk result (λ t. t.version ≡ version) }
    ensures hosts { IfOk result (λ t. IsPermutation hosts.now t.hosts) }
    ensures order { IfOk result (λ t. IsNodeSorted t.hosts) }
    ensures sound { OnOk result (table_fault space.now hosts.now ≡ None) }
    ensures refused { BuildsTable (table_fault space.now hosts.now) result }
    ensures members { (n : ℕ) → (result ≡ Err (TableError.TooManyMembers n)) ↔ ((n ≡ length hosts.now) × (256 < n)) }
    ensures types { (node : List ℕ) (n : ℕ) → (result ≡ Err (TableError.TooManyTypes node n)) ↔ ((length hosts.now ≤ 256) × (types_fault hosts.now ≡ Some (TableError.TooManyTypes node n))) }
    ensures same { (name : List ℕ) → (result ≡ Err (TableError.SameNode name)) ↔ ((length hosts.now ≤ 256) × (types_fault hosts.now ≡ None) × (same_node_fault [] hosts.now ≡ Some (TableError.SameNode name))) }
    ensures other { (node : List ℕ) → (result ≡ Err (TableError.OtherSpace node)) ↔ ((length hosts.now ≤ 256) × (types_fault hosts.now ≡ None) × (same_node_fault [] hosts.now ≡ None) × (other_space_fault space.now hosts.now ≡ Some (TableError.OtherSpace node))) }
{
    make_table(alloc, space, version, hosts)
}

// The host that owns the actor at this place, looked up with a counter of the ledger that the blank stands for.
fn fresh_owner<'a, L: Ledger>(
    table: &'a Table,
    key: &ActorKey,
    place: u64,
    blank: Blank,
) -> Option<&'a HostInfo>
    requires placed { place ≡ key_place key.now.id }
    requires name { blank.name ≡ L.name }
    requires parts { blank.parts ≡ L.parts }
    requires some { 0 < blank.parts }
    ensures owner { option_copied result ≡ table_owner table.now key.now }
    ensures node { option_map node_of (option_copied result) ≡ given_owner table.now.space table.now.hosts key.now }
{
    if key.space != table.space {
        return None;
    }
    let kept: &Kept = &table.kept;
    let mut steps = Steps::<L>::new(blank);
    owner_host(
        kept.hosts.as_slice(),
        kept.rings.as_slice(),
        key,
        place,
        &mut steps,
    )
}

// The host that owns the actor at this place among those of a table.
fn owner_host<'a, L: Ledger>(
    hosts: &'a [HostInfo],
    rings: &[TypeRing],
    key: &ActorKey,
    place: u64,
    steps: &mut Steps<L>,
) -> Option<&'a HostInfo>
    requires kept { IsTableKept hosts.now rings.now }
    requires placed { place ≡ key_place key.now.id }
    ensures owner { option_copied result ≡ option_and_then (host_of hosts.now) (owner_of hosts.now key.now) }
    ensures node { option_map node_of (option_copied result) ≡ owner_of hosts.now key.now }
    ensures point { IfSome result (λ h. (p : Point) × IsOwner (ring_points hosts.now key.now.kind) (key_place key.now.id) p × (p.node ≡ node_of h.now)) }
    ensures among { IfSome result (λ h. Contains hosts.now h.now) }
    ensures none { IsNone result ↔ (list_any (λ h. serves h key.now.kind) hosts.now ≡ false) }
    ensures counted { steps.old ≤ steps.new }
    ensures probes { 2 ^ (steps.new - steps.old) ≤ 2 * length (ring_points hosts.now key.now.kind) + 2 }
{
    let slots = ring_slots(rings, &key.kind);
    match owner_slot(slots, place, steps) {
        None => None,
        Some(slot) => Some(&hosts[slot.host]),
    }
}
