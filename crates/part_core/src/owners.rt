// Which actors belong to this member.
ghost use Rattle.std.specs.Prelude.{◌≡◌, ◌<◌, ◌&&◌, not, length, IfOk, IfErr, IsSome};
ghost use Rattle.std.specs.Option.{option_copied};
ghost use Rattle.place_table.specs.Hosts.{key_place};
ghost use Rattle.part_core.specs.Actors.{no_actors, state_of, total_foreign, IsOwnIfActive};
ghost use Rattle.part_model.specs.Part.{ring_owner, is_owned_by, is_open, is_foreign, owner_reply};

use crate::actors::Actors;
use crate::receipt::PartReply;
use crate::standing::Standing;
use actor_names::{ActorKey, OutOfMemory};
use part_cells::CellTest;
use part_model::{ActorCell, Stage};
use place_table::{HostInfo, Table};
use std::alloc::Global;

/// The host that owns the actor, whose id has this `key_hash`.
#[tactic(auto, unfolding(part_model::specs::Part::ring_owner))]
pub(crate) fn owner_host<'a>(table: &'a Table, key: &ActorKey, hash: u64) -> Option<&'a HostInfo>
    requires { hash ≡ key_place key.now.id }
    ensures { option_copied result ≡ ring_owner table.now key.now }
{
    table.owner_at(key, hash)
}

/// Whether the installed table gives the actor to this member.
pub(crate) fn is_own(standing: &Standing, key: &ActorKey, hash: u64) -> bool
    requires { hash ≡ key_place key.now.id }
    ensures { result ≡ is_owned_by standing.now.member (ring_owner standing.now.table key.now) }
{
    match owner_host(&standing.table, key, hash) {
        None => false,
        Some(host) => host.member == standing.member,
    }
}

/// Whether the actor is active and belongs to another owner.
#[derive(Drop)]
struct IsForeign<'a> {
    standing: &'a Standing,
}

impl<'a> CellTest for IsForeign<'a> {
    ghost holds = { λ t c. c.active && is_foreign ring_owner (state_of t.standing.now no_actors) c.key };

    fn holds(&self, cell: &ActorCell, hash: u64) -> bool {
        cell.active && !is_own(self.standing, &cell.key, hash)
    }
}

impl Actors {
    /// How many active actors belong to another owner.
    pub(crate) fn count_foreign(&self, standing: &Standing) -> usize
        ensures { result ≡ total_foreign ring_owner (state_of standing.now no_actors) self.now.cells }
    {
        self.cells.count_where(&IsForeign { standing })
    }
}

/// Where a moved call should go, by the installed table. Only an owner takes memory.
pub(crate) fn moved_reply(
    alloc: Global,
    table: &Table,
    key: &ActorKey,
    hash: u64,
) -> Result<PartReply, OutOfMemory>
    requires { hash ≡ key_place key.now.id }
    ensures reply { IfOk result (λ reply. reply ≡ owner_reply table.now.version (ring_owner table.now key.now)) }
    ensures owned { IfErr result (λ _. IsSome (ring_owner table.now key.now)) }
{
    let version = table.version();
    match owner_host(table, key, hash) {
        None => Ok(PartReply::NoHost { version }),
        Some(host) => {
            let owner = host.copy(alloc)?;
            Ok(PartReply::Elsewhere { version, owner })
        }
    }
}

/// Whether the part is open and the table gives the cell's actor to its member. An active actor of an open part belongs
/// to its member, so its owner isn't looked up.
pub(crate) fn is_served(standing: &Standing, cell: &ActorCell, hash: u64) -> bool
    requires owned { IsOwnIfActive standing.now cell.now }
    requires hashed { hash ≡ key_place cell.now.key.id }
    ensures { result ≡ (is_open standing.now.stage && is_owned_by standing.now.member (ring_owner standing.now.table cell.now.key)) }
{
    match standing.stage {
        Stage::Open => cell.active || is_own(standing, &cell.key, hash),
        _ => false,
    }
}

/// Whether a new chain may begin in the cell when its turns are over. The answer counts only if a call waits; if none
/// does, the owner isn't looked up.
pub(crate) fn may_hand_over(standing: &Standing, cell: &ActorCell, hash: u64) -> bool
    requires owned { IsOwnIfActive standing.now cell.now }
    requires hashed { hash ≡ key_place cell.now.key.id }
    ensures { 0 < length cell.now.inner.queue → result ≡ ((is_open standing.now.stage && is_owned_by standing.now.member (ring_owner standing.now.table cell.now.key)) && not cell.now.closing) }
{
    if cell.inner.waiting() == 0 || cell.closing {
        return false;
    }
    is_served(standing, cell, hash)
}
