// The cell of one actor: which call begins, which waits and which is refused.
ghost use Rattle.std.specs.Prelude.{◌≡◌, ℕ, ◌+◌, ◌^◌, ◌<◌, ◌≤◌, ◌↔◌, ◌++◌, max, length, vec_len, vec_capacity, false, [], IfOk, IfErr, IsSome, OnOk, OnErr, option_map};
ghost use Rattle.std.specs.Option.{option_copied};
ghost use Rattle.turn_core.specs.Cell.{new_cell, greatest_depth, longest_queue, admit_call, cell_end, cell_poll, cell_begin_next, first_unmoved, call_of, unmoved, turn_calls, chain_of, is_in_cell, with_hold, without_hold, with_queue_moved, without_turns, GivesStep};
ghost use Rattle.turn_core.specs.CellSound.{HasCallsOnce, IsCellSound};

use crate::answer::{Asked, CellEnd, CellError, CellPoll, NotHeld};
use crate::queue::{
    begin_first, count_unmoved, end_in_queue, is_waiting, join_queue, move_queue, take_at,
    waiter_place,
};
use crate::turns::{carry_chain, chain_at, copy_chain, end_turn, is_open, list_calls};
use actor_names::ChainId;
use std::alloc::Global;
use std::collections::VecDeque;
use std::marker::Model;

/// A call whose turn is open, with its chain if reentrancy is on.
#[derive(Drop)]
pub(crate) struct Turn {
    pub(crate) call: u64,
    pub(crate) chain: Option<ChainId>,
}

/// A call in the queue.
#[derive(Drop)]
pub(crate) struct Waiter {
    pub(crate) call: u64,
    pub(crate) chain: Option<ChainId>,
    pub(crate) moved: bool,
}

/// One actor's open turns, its queue of waiting calls and its holds.
#[derive(Drop)]
pub struct Cell {
    depth: u32,
    turns: Vec<Turn>,
    queue: VecDeque<Waiter>,
    holds: u64,
}

/// The greatest length of a queue.
const LONGEST_QUEUE: usize = 1024;

impl Model for Cell {
    ghost use Rattle.std.specs.Prelude.{◌<◌, vec_capacity};
    ghost use Rattle.turn_core.specs.Cell.{CellState};
    ghost use Rattle.turn_core.specs.CellSound.{IsCellKept};

    ghost Value = { CellState };

    ghost view = { λ a. record { depth = a.depth; turns = a.turns.items; queue = a.queue.items; holds = a.holds } };

    ghost invariant = { λ a. IsCellKept (record { depth = a.depth; turns = a.turns.items; queue = a.queue.items; holds = a.holds }) × (0 < vec_capacity a.turns) };
}

impl Cell {
    /// A cell with no open turn, an empty queue and no hold. A `depth` of 0 turns reentrancy off; a `depth` from 1 to
    /// 1,024 is the greatest number of turns of one chain that may be open at once. The only error is `OutOfMemory`.
    pub fn new(alloc: Global, depth: u32) -> Result<Cell, CellError>
        requires { depth ≤ greatest_depth }
        ensures ok { IfOk result (λ cell. cell ≡ new_cell depth) }
        ensures err { IfErr result (λ e. e ≡ CellError.OutOfMemory) }
    {
        match Vec::with_capacity(alloc, 1) {
            Ok(turns) => Ok(Cell {
                depth,
                turns,
                queue: VecDeque::new(alloc),
                holds: 0,
            }),
            Err(_) => Err(CellError::OutOfMemory),
        }
    }

    /// Begins the call, puts it at the end of the queue or refuses it. A call whose chain has open turns begins at
    /// once, up to the depth, whatever `may_begin` says. Any other call begins only if no turn is open and
    /// `may_begin` is true. At depth 0 the chain is ignored.
    pub fn ask(
        &mut self,
        alloc: Global,
        call: u64,
        chain: Option<&ChainId>,
        may_begin: bool,
    ) -> Result<Asked, CellError>
        requires absent { is_in_cell call self.old ≡ false }
        requires chained { 0 < self.old.depth → IsSome chain }
        ensures { GivesStep result self.old self.new (admit_call self.old call (option_copied chain.entry) may_begin) }
    {
        match self.admission(chain, may_begin)? {
            Asked::Begun => {
                let chain = copy_chain(alloc, chain_at(self.depth, chain))?;
                let Ok(()) = self.turns.push(Turn { call, chain }) else {
                    return Err(CellError::OutOfMemory);
                };
                Ok(Asked::Begun)
            }
            Asked::Waits { place } => {
                join_queue(alloc, &mut self.queue, call, chain_at(self.depth, chain))?;
                Ok(Asked::Waits { place })
            }
        }
    }

    /// How a call of this chain would be answered now, apart from want of memory. Nothing changes.
    pub fn admission(&self, chain: Option<&ChainId>, may_begin: bool) -> Result<Asked, CellError>
        ensures { (call : ℕ) → result ≡ (admit_call self.now call (option_copied chain.entry) may_begin).answer }
    {
        let chain = chain_at(self.depth, chain);
        if self.depth > 0 && carry_chain(&self.turns, chain) {
            if self.turns.len() >= self.depth as usize {
                return Err(CellError::Depth {
                    turns: self.turns.len() as u64,
                });
            }
            return Ok(Asked::Begun);
        }
        if self.turns.is_empty() && may_begin {
            return Ok(Asked::Begun);
        }
        if self.queue.len() >= LONGEST_QUEUE {
            return Err(CellError::QueueFull {
                n: self.queue.len() as u64,
            });
        }
        Ok(Asked::Waits {
            place: self.queue.len() as u64 + 1,
        })
    }

    /// Ends the call's turn. If no turn is open afterwards and `may_begin` is true, the first call in the queue
    /// that isn't moved begins.
    pub fn end(&mut self, call: u64, may_begin: bool) -> CellEnd
        ensures answer { result ≡ (cell_end self.old call may_begin).answer }
        ensures cell { self.new ≡ (cell_end self.old call may_begin).cell }
        ensures once { HasCallsOnce self.old }
    {
        if !end_turn(&mut self.turns, call) {
            return end_in_queue(&self.queue, call);
        }
        if !may_begin || !self.turns.is_empty() {
            return CellEnd::Ended { next: None };
        }
        CellEnd::Ended {
            next: begin_first(&mut self.turns, &mut self.queue),
        }
    }

    /// The state of the call. A moved call is removed from the queue.
    pub fn poll(&mut self, call: u64) -> CellPoll
        ensures answer { result ≡ (cell_poll self.old call).answer }
        ensures cell { self.new ≡ (cell_poll self.old call).cell }
        ensures once { HasCallsOnce self.old }
    {
        if is_open(&self.turns, call) {
            return CellPoll::Begun;
        }
        match waiter_place(&self.queue, call) {
            None => CellPoll::Gone,
            Some(at) => {
                if self.queue[at].moved {
                    let _moved = take_at(&mut self.queue, at);
                    return CellPoll::Moved;
                }
                CellPoll::Waits {
                    place: at as u64 + 1,
                }
            }
        }
    }

    /// The state of the call. A moved call stays in the queue.
    pub fn look(&self, call: u64) -> CellPoll
        ensures { result ≡ (cell_poll self.now call).answer }
    {
        if is_open(&self.turns, call) {
            return CellPoll::Begun;
        }
        match waiter_place(&self.queue, call) {
            None => CellPoll::Gone,
            Some(at) => {
                if self.queue[at].moved {
                    return CellPoll::Moved;
                }
                CellPoll::Waits {
                    place: at as u64 + 1,
                }
            }
        }
    }

    /// Whether the call is open or in the queue.
    pub fn has(&self, call: u64) -> bool
        ensures { result ≡ is_in_cell call self.now }
    {
        is_open(&self.turns, call) || is_waiting(&self.queue, call)
    }

    /// Begins the first call in the queue that isn't moved and returns its number, or `None` if there is none.
    pub fn begin_next(&mut self) -> Option<u64>
        requires { self.old.turns ≡ [] }
        ensures answer { result ≡ option_map call_of (first_unmoved self.old.queue) }
        ensures cell { self.new ≡ cell_begin_next self.old }
    {
        begin_first(&mut self.turns, &mut self.queue)
    }

    /// Adds one hold of the actor.
    pub fn hold(&mut self)
        requires { self.old.holds < 2 ^ 62 }
        ensures { self.new ≡ with_hold self.old }
    {
        self.holds += 1;
    }

    /// Removes one hold; `NotHeld` if there is none.
    pub fn release(&mut self) -> Result<(), NotHeld>
        ensures answer { OnErr result (self.old.holds ≡ 0) }
        ensures held { OnOk result (0 < self.old.holds) }
        ensures cell { self.new ≡ without_hold self.old }
    {
        if self.holds == 0 {
            return Err(NotHeld);
        }
        self.holds -= 1;
        Ok(())
    }

    /// Marks every call in the queue as moved, and returns how many weren't moved before.
    pub fn move_waiting(&mut self) -> u32
        ensures answer { result ≡ unmoved self.old.queue }
        ensures cell { self.new ≡ with_queue_moved self.old }
    {
        move_queue(&mut self.queue)
    }

    /// Ends every open turn, and returns how many there were. No call begins.
    pub fn end_all(&mut self) -> u32
        ensures answer { result ≡ length self.old.turns }
        ensures cell { self.new ≡ without_turns self.old }
        ensures once { HasCallsOnce self.old }
    {
        let count = self.turns.len() as u32;
        self.turns.clear();
        count
    }

    /// The depth that the cell was made with; 0 means that reentrancy is off.
    pub fn depth(&self) -> u32
        ensures { result ≡ self.now.depth }
    {
        self.depth
    }

    /// The chain of the open turns: `None` if no turn is open or reentrancy is off.
    pub fn chain(&self) -> Option<&ChainId>
        ensures { option_copied result ≡ chain_of self.now.turns }
    {
        match self.turns.first() {
            None => None,
            Some(turn) => turn.chain.as_ref(),
        }
    }

    /// How many turns are open: at most the depth, which is at most 1,024, and at depth 0 at most one.
    pub fn turns(&self) -> u32
        ensures count { result ≡ length self.now.turns }
        ensures within { result ≤ max self.now.depth 1 }
        ensures few { result ≤ greatest_depth }
        ensures sound { IsCellSound self.now }
        ensures once { HasCallsOnce self.now }
    {
        self.turns.len() as u32
    }

    /// Appends the calls of the open turns to `calls`, in the order in which the turns began. `calls` must have room
    /// for them.
    pub fn list_turns(&self, calls: &mut Vec<u64>)
        requires { vec_len calls.old + length self.now.turns ≤ vec_capacity calls.old }
        ensures items { calls.new.items ≡ calls.old.items ++ turn_calls self.now.turns }
        ensures room { vec_capacity calls.old ≤ vec_capacity calls.new }
    {
        list_calls(&self.turns, calls);
    }

    /// How many calls are in the queue, moved ones included: at most 1,024.
    pub fn waiting(&self) -> u32
        ensures count { result ≡ length self.now.queue }
        ensures within { result ≤ longest_queue }
    {
        self.queue.len() as u32
    }

    /// How many calls in the queue aren't moved: at most 1,024.
    pub fn unmoved(&self) -> u32
        ensures { result ≡ unmoved self.now.queue }
    {
        count_unmoved(&self.queue)
    }

    /// How many holds there are, at most 2^62.
    pub fn holds(&self) -> u64
        ensures count { result ≡ self.now.holds }
        ensures within { result ≤ 2 ^ 62 }
    {
        self.holds
    }
}
