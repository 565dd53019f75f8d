// The chains of calls.
ghost use Rattle.std.specs.Prelude.{◌≡◌, ◌+◌, ◌<◌, ◌^◌, ◌==◌, if◌then◌else◌, None, IfOk, IfErr, IsSome};
ghost use Rattle.std.specs.Option.{option_copied};
ghost use Rattle.actor_names.specs.Names.{chain_id_fault};
ghost use Rattle.turn_core.specs.Cell.{is_open_chain};
ghost use Rattle.part_model.specs.Part.{made_chain, chain_or};

use crate::standing::Standing;
use actor_names::{ChainId, Member, NameError, OutOfMemory, read_chain_id};
use std::alloc::Global;
use turn_core::Cell;

/// The text as a chain identifier. The text has the form of a chain, so nothing but memory can fail.
fn chain_in(alloc: Global, text: &[u8]) -> Result<ChainId, OutOfMemory>
    requires { chain_id_fault text.now ≡ None }
    ensures { IfOk result (λ chain. chain ≡ text.now) }
{
    match read_chain_id(alloc, text) {
        Ok(chain) => Ok(chain),
        Err(NameError::OutOfMemory) => Err(OutOfMemory),
        Err(_) => unreachable!(),
    }
}

/// The chain that a part makes from a number that it draws: `<node>.<boot>.<part>.<n>`.
fn made_chain(alloc: Global, member: &Member, part: u8, n: u64) -> Result<ChainId, OutOfMemory>
    ensures { IfOk result (λ chain. chain ≡ made_chain member.now part n) }
{
    let boot = member.boot;
    let numbers = format!(in alloc; ".{boot}.{part}.{n}")?;
    let mut text = Vec::from_slice(alloc, member.node.as_slice())?;
    text.extend_from_slice(numbers.as_bytes())?;
    chain_in(alloc, text.as_slice())
}

/// The chain of the next call in a cell of this depth: none if reentrancy is off, made if the call brings none.
pub(crate) fn call_chain(
    alloc: Global,
    standing: &Standing,
    drawn: u64,
    depth: u32,
    chain: Option<ChainId>,
) -> Result<Option<ChainId>, OutOfMemory>
    requires { drawn < 2 ^ 62 }
    ensures chain { IfOk result (λ made. made ≡ (if depth == 0 then None else chain_or chain (made_chain standing.now.member standing.now.number (drawn + 1)))) }
    ensures chained { IfOk result (λ made. 0 < depth → IsSome made) }
{
    if depth == 0 {
        return Ok(None);
    }
    match chain {
        Some(chain) => Ok(Some(chain)),
        None => {
            let made = made_chain(alloc, &standing.member, standing.number, drawn + 1)?;
            Ok(Some(made))
        }
    }
}

/// Whether reentrancy is on and the open turns carry this chain.
pub(crate) fn carries(cell: &Cell, chain: Option<&ChainId>) -> bool
    requires { 0 < cell.now.depth → IsSome chain }
    ensures { result ≡ is_open_chain cell.now (option_copied chain.entry) }
{
    if cell.depth() == 0 {
        return false;
    }
    match (cell.chain(), chain) {
        (Some(open), Some(chain)) => open == chain,
        _ => false,
    }
}

/// A copy of the chain, or `None` if there is no chain, which takes no memory.
pub(crate) fn copy_chain(
    alloc: Global,
    chain: Option<&ChainId>,
) -> Result<Option<ChainId>, OutOfMemory>
    ensures chain { IfOk result (λ copy. copy ≡ option_copied chain.entry) }
    ensures taken { IfErr result (λ _. IsSome (option_copied chain.entry)) }
{
    match chain {
        None => Ok(None),
        Some(chain) => Ok(Some(chain.copy(alloc)?)),
    }
}
