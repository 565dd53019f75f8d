// A call that is asked of an actor: whether it may enter, and the cell's answer as the part's reply.
ghost use Rattle.std.specs.Prelude.{◌≡◌, true, ◌<◌, ◌≤◌, ◌++◌, ◌+◌, IsSome, length, vec_len, vec_capacity};
ghost use Rattle.std.specs.Option.{option_copied};
ghost use Rattle.place_table.specs.Hosts.{key_place};
ghost use Rattle.part_model.specs.Part.{is_owned_by, ring_owner};
ghost use Rattle.part_core.specs.Actors.{Enters, EntersOwned, IsOwnIfActive, is_begun, reply_by, begun_by, refusal_by, begun_next_in};

use crate::chains::carries;
use crate::owners::owner_host;
use crate::receipt::PartReply;
use crate::standing::Standing;
use actor_names::ChainId;
use part_model::{ActorCell, Stage};
use std::alloc::Global;
use turn_core::{Asked, CellError};

/// Whether a new chain may begin in the cell of an open part, which refuses actors that its table gives to nobody or to
/// another member. An active actor belongs to the part's member, so its owner isn't looked up.
fn enter_owned(
    alloc: Global,
    standing: &Standing,
    cell: &ActorCell,
    hash: u64,
) -> Result<bool, PartReply>
    requires hashed { hash ≡ key_place cell.now.key.id }
    requires owned { cell.now.active ≡ true → is_owned_by standing.now.member (ring_owner standing.now.table cell.now.key) ≡ true }
    ensures { EntersOwned standing.now cell.now result }
{
    if cell.active {
        return Ok(true);
    }
    let version = standing.table.version();
    match owner_host(&standing.table, &cell.key, hash) {
        None => Err(PartReply::NoHost { version }),
        Some(host) => {
            if host.member == standing.member {
                return Ok(true);
            }
            match host.copy(alloc) {
                Ok(owner) => Err(PartReply::Elsewhere { version, owner }),
                Err(_) => Err(PartReply::OutOfMemory),
            }
        }
    }
}

/// Whether a call enters a part that has not stopped, and then whether it may begin a new chain. A call of an open chain
/// enters in any stage; any other call begins only in an open part.
pub(crate) fn enter(
    alloc: Global,
    standing: &Standing,
    cell: &ActorCell,
    hash: u64,
    chain: Option<&ChainId>,
) -> Result<bool, PartReply>
    requires hashed { hash ≡ key_place cell.now.key.id }
    requires chained { 0 < cell.now.inner.depth → IsSome chain }
    requires owned { IsOwnIfActive standing.now cell.now }
    ensures { Enters standing.now cell.now (option_copied chain.entry) result }
{
    if carries(&cell.inner, chain) {
        return Ok(false);
    }
    match standing.stage {
        Stage::Open => enter_owned(alloc, standing, cell, hash),
        _ => Ok(false),
    }
}

/// Whether the call has begun.
pub(crate) fn has_begun(asked: &Asked) -> bool
    ensures { result ≡ is_begun asked.now }
{
    match asked {
        Asked::Begun => true,
        Asked::Waits { .. } => false,
    }
}

/// The reply to a call that the cell has accepted. If it has begun, it is appended to the list.
pub(crate) fn accepted(
    calls: &mut Vec<u64>,
    call: u64,
    chain: Option<ChainId>,
    asked: Asked,
) -> PartReply
    requires { vec_len calls.old < vec_capacity calls.old }
    ensures reply { result ≡ reply_by call chain asked }
    ensures items { calls.new.items ≡ calls.old.items ++ begun_by call asked }
    ensures room { vec_capacity calls.old ≤ vec_capacity calls.new }
{
    match asked {
        Asked::Begun => {
            note_next(calls, Some(call));
            PartReply::Begun { call, chain }
        }
        Asked::Waits { place } => PartReply::Waits { call, place },
    }
}

/// The reply to a call that the cell has refused.
pub(crate) fn refused(refusal: CellError) -> PartReply
    ensures { result ≡ refusal_by refusal }
{
    match refusal {
        CellError::Depth { turns } => PartReply::Depth { turns },
        CellError::QueueFull { n } => PartReply::QueueFull { n },
        CellError::OutOfMemory => PartReply::OutOfMemory,
    }
}

/// Appends the call that has begun to the list, if there is one.
pub(crate) fn note_next(calls: &mut Vec<u64>, next: Option<u64>)
    requires { vec_len calls.old + length (begun_next_in next) ≤ vec_capacity calls.old }
    ensures items { calls.new.items ≡ calls.old.items ++ begun_next_in next }
    ensures room { vec_capacity calls.old ≤ vec_capacity calls.new }
{
    match next {
        None => {}
        Some(call) => match calls.push(call) {
            Ok(()) => {}
            Err(_) => unreachable!(),
        },
    }
}
