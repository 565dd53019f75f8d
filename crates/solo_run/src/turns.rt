// What happens to the calls of a cell: a call with the chain that it carries, and the end and the poll of a call.
ghost use Rattle.std.specs.Prelude.{◌≡◌, ◌==◌, if◌then◌else◌, true, false, None, Some, IfOk, OnErr, is_ok, unwrap_or, option_copied};
ghost use Rattle.turn_core.specs.Cell.{is_in_cell, cell_end, cell_poll, without_hold};
ghost use Rattle.solo_run.specs.World.{made_chain, ask_at, ask_outcome, end_outcome, poll_outcome};

use actor_names::{ChainId, OutOfMemory, read_chain_id};
use std::alloc::Global;
use turn_core::{Asked, Cell, CellEnd, CellError, CellPoll};
use world_events::TurnOutcome;

/// What came of a call.
#[derive(Clone, Copy)]
pub(crate) struct Admission {
    pub(crate) outcome: TurnOutcome,
    /// Whether the call has begun or waits.
    pub(crate) admitted: bool,
}

impl Admission {
    /// The place of the call's actor, none if the call was refused.
    pub(crate) fn actor(&self, place: u32) -> Option<u32>
        ensures { result ≡ (if self.now.admitted then Some place else None) }
    {
        if self.admitted { Some(place) } else { None }
    }
}

/// The identifier in a text. Any failure means out of memory: the text's form was tested when it was read.
fn chain_in(alloc: Global, text: &[u8]) -> Result<ChainId, OutOfMemory>
    ensures { IfOk result (λ chain. chain ≡ text.now) }
{
    match read_chain_id(alloc, text) {
        Ok(chain) => Ok(chain),
        Err(_) => Err(OutOfMemory),
    }
}

/// The chain of a call: the one that it brings, or one made from its number.
fn chain_of_call(alloc: Global, number: u64, chain: Option<&[u8]>) -> Result<ChainId, OutOfMemory>
    ensures { IfOk result (λ made. made ≡ unwrap_or (option_copied chain.entry) (made_chain number)) }
{
    match chain {
        Some(text) => chain_in(alloc, text),
        None => {
            let text = format!(in alloc; "solo.1.0.{number}")?;
            chain_in(alloc, text.as_bytes())
        }
    }
}

/// Asks for a call at a cell.
pub(crate) fn ask_cell(
    alloc: Global,
    cell: &mut Cell,
    number: u64,
    chain: Option<&[u8]>,
) -> Result<Admission, OutOfMemory>
    requires { is_in_cell number cell.old ≡ false }
    ensures cell { IfOk result (λ _. cell.new ≡ (ask_at cell.old number (option_copied chain.entry)).cell) }
    ensures outcome { IfOk result (λ a. a.outcome ≡ ask_outcome number (ask_at cell.old number (option_copied chain.entry)).answer) }
    ensures admitted { IfOk result (λ a. a.admitted ≡ is_ok (ask_at cell.old number (option_copied chain.entry)).answer) }
    ensures unchanged { OnErr result (cell.new ≡ cell.old) }
{
    let asked = if cell.depth() == 0 {
        cell.ask(alloc, number, None, true)
    } else {
        let chain = chain_of_call(alloc, number, chain)?;
        cell.ask(alloc, number, Some(&chain), true)
    };
    match asked {
        Ok(Asked::Begun) => Ok(Admission {
            outcome: TurnOutcome::Begun { call: number },
            admitted: true,
        }),
        Ok(Asked::Waits { place }) => Ok(Admission {
            outcome: TurnOutcome::Waits {
                call: number,
                place,
            },
            admitted: true,
        }),
        Err(CellError::Depth { turns }) => Ok(Admission {
            outcome: TurnOutcome::Depth {
                call: number,
                turns,
            },
            admitted: false,
        }),
        Err(CellError::QueueFull { .. }) => Ok(Admission {
            outcome: TurnOutcome::QueueFull { call: number },
            admitted: false,
        }),
        Err(CellError::OutOfMemory) => Err(OutOfMemory),
    }
}

/// Ends a call's turn; the first call in the queue begins if the actor is then free.
pub(crate) fn end_call(cell: &mut Cell, call: u64) -> TurnOutcome
    ensures cell { cell.new ≡ (cell_end cell.old call true).cell }
    ensures outcome { result ≡ end_outcome call (cell_end cell.old call true).answer }
{
    match cell.end(call, true) {
        CellEnd::Ended { next } => TurnOutcome::Ended { call, next },
        CellEnd::AlreadyEnded => TurnOutcome::AlreadyEnded { call },
        CellEnd::StillWaiting => TurnOutcome::StillWaiting { call },
    }
}

/// What state a call is in.
pub(crate) fn poll_call(cell: &mut Cell, call: u64) -> TurnOutcome
    ensures cell { cell.new ≡ (cell_poll cell.old call).cell }
    ensures outcome { result ≡ poll_outcome call (cell_poll cell.old call).answer }
{
    match cell.poll(call) {
        CellPoll::Begun => TurnOutcome::Begun { call },
        CellPoll::Waits { place } => TurnOutcome::Waits { call, place },
        CellPoll::Moved | CellPoll::Gone => TurnOutcome::AlreadyEnded { call },
    }
}

/// Releases a hold.
pub(crate) fn release_hold(cell: &mut Cell) -> TurnOutcome
    ensures cell { cell.new ≡ without_hold cell.old }
    ensures outcome { result ≡ (if cell.old.holds == 0 then TurnOutcome.NotHeld else TurnOutcome.Released) }
{
    match cell.release() {
        Ok(()) => TurnOutcome::Released,
        Err(_) => TurnOutcome::NotHeld,
    }
}
