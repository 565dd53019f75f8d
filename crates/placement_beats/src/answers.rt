// What the parts answered to one event.
ghost use Rattle.std.specs.Prelude.{◌≡◌, ◌≤◌, [], ◌∷◌, length, vec_len, vec_capacity, true, false, IfOk, OnErr};
ghost use Rattle.part_model.specs.Rooms.{IsInRange};
ghost use Rattle.sidecar_node.specs.Turns.{first_spent};
ghost use Rattle.sidecar_node.specs.Rounds.{part_event, MayWantMemory};
ghost use Rattle.sidecar_node.specs.Nodes.{part_gates, IsSeatsOf, GivesEach};
ghost use Rattle.placement_beats.specs.Answers.{receipt_in, is_stop, receipt_said, says_stopped, any_stopped, receipts_of, hindrance, end_or};

use crate::book::TurnEnd;
use lists_and_limits::OutOfMemory;
use part_core::{PartReply, Receipt};
use part_model::SeenStage;
use sidecar_node::{RoundEvent, Seats, SidecarNode};
use std::alloc::Global;
use std::sync::Wait;
use step_gate::Spent;

/// What the parts answered, and whether each part was given the event.
#[derive(Drop)]
pub(crate) struct Answers {
    pub(crate) saids: Vec<Result<PartReply, Spent>>,
    pub(crate) whole: bool,
}

/// Gives each part the event, in order.
pub(crate) fn give_all<R: Wait>(
    rt: &R,
    alloc: Global,
    node: &SidecarNode,
    seats: &mut Seats,
    event: &RoundEvent,
) -> Result<Answers, OutOfMemory>
    requires seats { IsSeatsOf node.now seats.old }
    requires event { IsInRange (part_event event.now) }
    ensures seats { IsSeatsOf node.now seats.new }
    ensures gives { IfOk result (λ a. GivesEach (part_event event.now) a.saids.items seats.old seats.new) }
    ensures each { IfOk result (λ a. a.whole ≡ true → length a.saids.items ≡ length (part_gates node.now)) }
    ensures memory { IfOk result (λ a. a.whole ≡ false → MayWantMemory event.now) }
    ensures kept { OnErr result (seats.new ≡ seats.old) }
{
    let Ok(mut saids) = Vec::with_capacity(alloc, node.parts()) else {
        return Err(OutOfMemory);
    };
    match node.give_each(rt, seats, event, &mut saids) {
        Ok(()) => Ok(Answers { saids, whole: true }),
        Err(_) => Ok(Answers {
            saids,
            whole: false,
        }),
    }
}

// The receipt in a reply, if it has one.
fn receipt_in(reply: &PartReply) -> Option<Receipt>
    ensures { result ≡ receipt_in reply.now }
{
    match reply {
        PartReply::TableStep { receipt, .. } => Some(*receipt),
        PartReply::Opened { receipt, .. } => Some(*receipt),
        PartReply::NotDrained { receipt } => Some(*receipt),
        PartReply::Ticked { receipt, .. } => Some(*receipt),
        PartReply::StoppedNow { receipt } => Some(*receipt),
        _ => None,
    }
}

// Whether there is no receipt, or that of a stopped part.
fn is_stop(receipt: Option<Receipt>) -> bool
    ensures { result ≡ is_stop receipt }
{
    match receipt {
        None => true,
        Some(receipt) => match receipt.stage() {
            SeenStage::Stopped => true,
            SeenStage::Locked | SeenStage::Draining | SeenStage::Drained | SeenStage::Open => false,
        },
    }
}

// The receipt in an answer, if it has one.
fn receipt_said(said: &Result<PartReply, Spent>) -> Option<Receipt>
    ensures { result ≡ receipt_said said.now }
{
    match said {
        Ok(reply) => receipt_in(reply),
        Err(_) => None,
    }
}

// Whether this answer says that a part has stopped.
fn says_stopped(said: &Result<PartReply, Spent>) -> bool
    ensures { result ≡ says_stopped said.now }
{
    match said {
        Ok(reply) => is_stop(receipt_in(reply)),
        Err(_) => false,
    }
}

// Whether the gate took no entry.
fn spent_said(said: &Result<PartReply, Spent>) -> Option<Spent>
    ensures { first_spent (said.now ∷ []) ≡ result }
{
    match said {
        Ok(_) => None,
        Err(spent) => Some(*spent),
    }
}

// Whether some part has stopped.
fn any_stopped(saids: &[Result<PartReply, Spent>]) -> bool
    ensures { result ≡ any_stopped saids.now }
{
    for said in saids {
        if says_stopped(said) {
            return true;
        }
    }
    false
}

/// The first answer that a gate took no entry.
pub(crate) fn first_spent(saids: &[Result<PartReply, Spent>]) -> Option<Spent>
    ensures { result ≡ first_spent saids.now }
{
    for said in saids {
        if let Some(spent) = spent_said(said) {
            return Some(spent);
        }
    }
    None
}

/// What ends a turn after these answers.
pub(crate) fn hindrance(saids: &[Result<PartReply, Spent>]) -> Option<TurnEnd>
    ensures { result ≡ hindrance saids.now }
{
    match first_spent(saids) {
        Some(spent) => Some(TurnEnd::Spent { count: spent.count }),
        None => {
            if any_stopped(saids) {
                Some(TurnEnd::Stopped)
            } else {
                None
            }
        }
    }
}

/// The end, if nothing hinders.
pub(crate) fn end_or(hindered: Option<TurnEnd>, end: TurnEnd) -> TurnEnd
    ensures { result ≡ end_or hindered end }
{
    match hindered {
        None => end,
        Some(hindered) => hindered,
    }
}

/// The receipts in the answers, in order.
pub(crate) fn receipts_of(
    alloc: Global,
    saids: &[Result<PartReply, Spent>],
) -> Result<Vec<Receipt>, OutOfMemory>
    ensures { IfOk result (λ rs. rs.items ≡ receipts_of saids.now) }
{
    let mut receipts = Vec::new(alloc);
    for said in saids {
        if let Some(receipt) = receipt_said(said) {
            if receipts.push(receipt).is_err() {
                return Err(OutOfMemory);
            }
        }
    }
    Ok(receipts)
}
