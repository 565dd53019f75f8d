// The open turns of a cell.
ghost use Rattle.std.specs.Prelude.{◌≡◌, ◌+◌, ◌<◌, ◌≤◌, ◌==◌, if◌then◌else◌, position, [], ◌∷◌, ◌++◌, IfOk, IfErr, length, vec_len, vec_capacity};
ghost use Rattle.std.specs.Option.{option_copied};
ghost use Rattle.turn_core.specs.Cell.{same_chain, is_first_chain, has_turn, without_turn, turn_calls};

use crate::answer::CellError;
use crate::cell::Turn;
use actor_names::ChainId;
use std::alloc::Global;

/// The chain that a cell of this depth keeps: none at depth 0.
pub(crate) fn chain_at(depth: u32, chain: Option<&ChainId>) -> Option<&ChainId>
    ensures { option_copied result ≡ (if depth == 0 then None else option_copied chain.entry) }
{
    if depth == 0 { None } else { chain }
}

/// Whether the two chains are equal, or both are absent.
pub(crate) fn is_same_chain(a: Option<&ChainId>, b: Option<&ChainId>) -> bool
    ensures { result ≡ same_chain (option_copied a.entry) (option_copied b.entry) }
{
    match (a, b) {
        (None, None) => true,
        (Some(a), Some(b)) => a == b,
        _ => false,
    }
}

/// Whether a turn is open and the first one carries this chain.
pub(crate) fn carry_chain(turns: &[Turn], chain: Option<&ChainId>) -> bool
    ensures { result ≡ is_first_chain turns.now (option_copied chain.entry) }
{
    match turns.first() {
        None => false,
        Some(turn) => is_same_chain(turn.chain.as_ref(), chain),
    }
}

/// A copy of the chain, or `None` if there is no chain.
pub(crate) fn copy_chain(
    alloc: Global,
    chain: Option<&ChainId>,
) -> Result<Option<ChainId>, CellError>
    ensures ok { IfOk result (λ copy. copy ≡ option_copied chain.entry) }
    ensures err { IfErr result (λ e. e ≡ CellError.OutOfMemory) }
{
    match chain {
        None => Ok(None),
        Some(chain) => match chain.copy(alloc) {
            Ok(copy) => Ok(Some(copy)),
            Err(_) => Err(CellError::OutOfMemory),
        },
    }
}

/// The place of the call's turn among the open ones, from 0.
pub(crate) fn turn_place(turns: &[Turn], call: u64) -> Option<usize>
    ensures { result ≡ position (λ t. call == t.call) turns.now }
{
    turns.iter().position(|turn| call == turn.call)
}

/// Whether the call's turn is open.
pub(crate) fn is_open(turns: &[Turn], call: u64) -> bool
    ensures { result ≡ has_turn call turns.now }
{
    match turn_place(turns, call) {
        None => false,
        Some(_) => true,
    }
}

/// Opens a turn of the call; the list must have room for it.
pub(crate) fn open_in_room(turns: &mut Vec<Turn>, call: u64, chain: Option<ChainId>)
    requires { vec_len turns.old < vec_capacity turns.old }
    ensures items { turns.new.items ≡ turns.old.items ++ record { call = call; chain = chain } ∷ [] }
    ensures room { vec_capacity turns.old ≤ vec_capacity turns.new }
{
    match turns.push(Turn { call, chain }) {
        Ok(()) => {}
        Err(_) => unreachable!(),
    }
}

/// Ends the call's turn if it is open, and returns whether it was.
pub(crate) fn end_turn(turns: &mut Vec<Turn>, call: u64) -> bool
    ensures open_turn { result ≡ has_turn call turns.old.items }
    ensures items { turns.new.items ≡ without_turn call turns.old.items }
    ensures room { vec_capacity turns.new ≡ vec_capacity turns.old }
{
    match turn_place(turns, call) {
        None => false,
        Some(at) => {
            let _ended = turns.remove(at);
            true
        }
    }
}

/// Appends the calls of the turns to a list that has room for them.
pub(crate) fn list_calls(turns: &[Turn], calls: &mut Vec<u64>)
    requires { vec_len calls.old + length turns.now ≤ vec_capacity calls.old }
    ensures items { calls.new.items ≡ calls.old.items ++ turn_calls turns.now }
    ensures room { vec_capacity calls.old ≤ vec_capacity calls.new }
{
    for turn in turns {
        match calls.push(turn.call) {
            Ok(()) => {}
            Err(_) => unreachable!(),
        }
    }
}
