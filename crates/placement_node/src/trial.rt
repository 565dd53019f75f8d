// A step that is tried on a copy of the placement, so that it can be given up, and one that needs no copy.
ghost use Rattle.std.specs.Prelude.{◌≡◌, ◌≢◌, IfOk, IfSome};
ghost use Rattle.placement_node.specs.Ranges.{EventFits, StateFits};
ghost use Rattle.placement_node.specs.Trials.{IsQuiet, Tries};

use crate::answer::{event_space, reply_of};
use crate::reply::NodeReply;
use actor_names::{Member, OutOfMemory};
use placement_core::Placement;
use round_core::{PlaceEvent, PlaceReply};
use std::alloc::Global;

/// A placement after a step that was tried, and the answer to the step.
#[derive(Drop)]
pub(crate) struct Tried {
    pub(crate) placement: Placement,
    pub(crate) answer: NodeReply,
}

// A reply other than that memory ran out.
fn had_memory(reply: PlaceReply) -> Option<PlaceReply>
    ensures { IfSome result (λ r. (r ≡ reply) × (reply ≢ PlaceReply.OutOfMemory)) }
{
    match reply {
        PlaceReply::OutOfMemory => None,
        reply => Some(reply),
    }
}

// The member whose Beat it is; `None` if it is another event.
fn beat_of(event: &PlaceEvent) -> Option<Member>
    ensures { IfSome result (λ member. event.now ≡ PlaceEvent.Beat member) }
{
    match event {
        PlaceEvent::Beat { member } => Some(*member),
        _ => None,
    }
}

/// The answer to a Beat that changes nothing but the moment at which its member was heard, unless there is no memory for
/// it. `None` if it is another event, or one that may change more.
pub(crate) fn quiet_answer(
    alloc: Global,
    placement: &Placement,
    event: &PlaceEvent,
) -> Option<Result<NodeReply, OutOfMemory>>
    requires sent { EventFits event.now }
    requires kept { StateFits placement.now.state }
    ensures { IfSome result (λ made. IfOk made (λ answer. IsQuiet placement.now.state event.now answer)) }
{
    let _rooms = placement.rooms();
    let member = beat_of(event)?;
    let reply = placement.beat_reply(&member)?;
    Some(reply_of(alloc, placement, &member.space, reply))
}

/// Tries a step on a copy of the placement. `None` if there is no memory.
pub(crate) fn try_step(
    alloc: Global,
    placement: &Placement,
    event: PlaceEvent,
    now: u64,
) -> Option<Tried>
    requires sent { EventFits event }
    requires kept { StateFits placement.now.state }
    ensures { IfSome result (λ tried. Tries event now placement.now.state tried.placement tried.answer) }
{
    let _rooms = placement.rooms();
    let space = event_space(&event);
    let Ok(mut trial) = placement.copy(alloc) else {
        return None;
    };
    let reply = had_memory(trial.step(event, now))?;
    let _rooms = trial.rooms();
    match reply_of(alloc, &trial, &space, reply) {
        Ok(answer) => Some(Tried {
            placement: trial,
            answer,
        }),
        Err(_) => None,
    }
}
