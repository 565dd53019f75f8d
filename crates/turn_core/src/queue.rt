// The queue of calls that wait in a cell, in the order of arrival.
ghost use Rattle.std.specs.Prelude.{◌≡◌, ◌<◌, ◌≤◌, ◌^◌, ◌==◌, ◌∷◌, ◌++◌, [], not, true, false, if◌then◌else◌, length, is_some, position, remove, OnOk, IfErr, option_map, vec_len, vec_capacity};
ghost use Rattle.std.specs.List.{slice_index_or};
ghost use Rattle.std.specs.Option.{option_copied};
ghost use Rattle.turn_core.specs.Cell.{waiter_of, not_open, first_unmoved, without_first_unmoved, begun_turns, call_of, unmoved, all_moved};

use crate::answer::{CellEnd, CellError};
use crate::cell::{Turn, Waiter};
use crate::turns::{copy_chain, open_in_room};
use actor_names::ChainId;
use std::alloc::Global;
use std::collections::VecDeque;

/// The place of the call in the queue, from 0.
pub(crate) fn waiter_place(queue: &VecDeque<Waiter>, call: u64) -> Option<usize>
    ensures { result ≡ position (λ w. call == w.call) queue.now.items }
{
    queue.iter().position(|waiter| call == waiter.call)
}

/// Whether the call is in the queue.
pub(crate) fn is_waiting(queue: &VecDeque<Waiter>, call: u64) -> bool
    ensures { result ≡ is_some (waiter_of call queue.now.items) }
{
    match waiter_place(queue, call) {
        None => false,
        Some(_) => true,
    }
}

/// The place of the first call that isn't moved, from 0.
pub(crate) fn unmoved_place(queue: &VecDeque<Waiter>) -> Option<usize>
    ensures { result ≡ position (λ w. not w.moved) queue.now.items }
{
    queue.iter().position(|waiter| !waiter.moved)
}

/// Puts the call at the end of the queue, with a copy of the chain.
pub(crate) fn join_queue(
    alloc: Global,
    queue: &mut VecDeque<Waiter>,
    call: u64,
    chain: Option<&ChainId>,
) -> Result<(), CellError>
    ensures ok { OnOk result (queue.new.items ≡ queue.old.items ++ record { call = call; chain = option_copied chain.entry; moved = false } ∷ []) }
    ensures err { IfErr result (λ e. (e ≡ CellError.OutOfMemory) × (queue.new.items ≡ queue.old.items)) }
{
    let chain = copy_chain(alloc, chain)?;
    let waiter = Waiter {
        call,
        chain,
        moved: false,
    };
    match queue.push_back(waiter) {
        Ok(()) => Ok(()),
        Err(_) => Err(CellError::OutOfMemory),
    }
}

/// Removes the call at this place: the first in constant time, any other by moving the shorter side of the queue.
pub(crate) fn take_at(queue: &mut VecDeque<Waiter>, at: usize) -> Waiter
    requires { at < length queue.old.items }
    ensures value { result ≡ slice_index_or queue.old.items at result }
    ensures rest { queue.new.items ≡ remove queue.old.items at }
{
    let taken = if at == 0 {
        queue.pop_front()
    } else {
        queue.remove(at)
    };
    match taken {
        Some(waiter) => waiter,
        None => unreachable!(),
    }
}

/// Removes and returns the first call in the queue that isn't moved.
pub(crate) fn take_first(queue: &mut VecDeque<Waiter>) -> Option<Waiter>
    ensures first { result ≡ first_unmoved queue.old.items }
    ensures rest { queue.new.items ≡ without_first_unmoved queue.old.items }
{
    match unmoved_place(queue) {
        None => None,
        Some(at) => Some(take_at(queue, at)),
    }
}

/// What `Cell::end` answers for a call that isn't open.
pub(crate) fn end_in_queue(queue: &VecDeque<Waiter>, call: u64) -> CellEnd
    ensures { result ≡ not_open (waiter_of call queue.now.items) }
{
    match waiter_place(queue, call) {
        None => CellEnd::AlreadyEnded,
        Some(_) => CellEnd::StillWaiting,
    }
}

/// Begins the first call in the queue that isn't moved, and returns its number.
pub(crate) fn begin_first(turns: &mut Vec<Turn>, queue: &mut VecDeque<Waiter>) -> Option<u64>
    requires { vec_len turns.old < vec_capacity turns.old }
    ensures answer { result ≡ option_map call_of (first_unmoved queue.old.items) }
    ensures turns { turns.new.items ≡ turns.old.items ++ begun_turns (first_unmoved queue.old.items) }
    ensures queue { queue.new.items ≡ without_first_unmoved queue.old.items }
    ensures room { vec_capacity turns.old ≤ vec_capacity turns.new }
{
    match take_first(queue) {
        None => None,
        Some(Waiter { call, chain, .. }) => {
            open_in_room(turns, call, chain);
            Some(call)
        }
    }
}

/// How many calls aren't moved.
pub(crate) fn count_unmoved(queue: &VecDeque<Waiter>) -> u32
    requires { length queue.now.items < 2 ^ 32 }
    ensures { result ≡ unmoved queue.now.items }
{
    let mut count = 0;
    for i in 0..queue.len() {
        if !queue[i].moved {
            count += 1;
        }
    }
    count
}

/// Marks the call as moved, and returns 1 if it wasn't moved before, else 0.
fn move_waiter(waiter: &mut Waiter) -> u32
    ensures moved { waiter.new ≡ record waiter.old { moved = true } }
    ensures count { result ≡ (if waiter.old.moved then 0 else 1) }
{
    let count = if waiter.moved { 0 } else { 1 };
    waiter.moved = true;
    count
}

/// Marks every call as moved, and returns how many weren't moved before.
pub(crate) fn move_queue(queue: &mut VecDeque<Waiter>) -> u32
    requires { length queue.old.items < 2 ^ 32 }
    ensures moved { queue.new.items ≡ all_moved queue.old.items }
    ensures count { result ≡ unmoved queue.old.items }
{
    let mut count = 0;
    for i in 0..queue.len() {
        let waiter = &mut queue[i];
        count += move_waiter(waiter);
    }
    count
}
