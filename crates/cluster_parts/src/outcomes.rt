// What parts and the placement reply, as outcomes of the events that caused it.
ghost use Rattle.std.specs.Prelude.{◌≡◌};
ghost use Rattle.cluster_model.specs.World.{call_outcome, hold_outcome, seen_outcome, told_outcome, closing_outcome, stop_outcome, lost_outcome, dropped_outcome, ended_turns};

use actor_names::Member;
use part_core::{PartReply, Receipt};
use part_model::SeenStage;
use round_core::PlaceReply;
use world_events::{Outcome, TurnOutcome};

/// What a turn comes to, as an outcome of a cluster.
fn turn(outcome: TurnOutcome) -> Outcome
    ensures { result ≡ Outcome.Turn outcome }
{
    Outcome::Turn { outcome }
}

/// The outcome `none`: what the event names doesn't exist.
pub fn nothing() -> Outcome
    ensures { result ≡ Outcome.Turn TurnOutcome.NotThere }
{
    turn(TurnOutcome::NotThere)
}

/// The outcome of a call, and of a poll, with the script's number of the call. A reply that answers neither gives `none`,
/// and so does each function here.
pub fn call_outcome(call: u64, reply: PartReply) -> Outcome
    ensures { result ≡ call_outcome call reply }
{
    match reply {
        PartReply::Begun { .. } => turn(TurnOutcome::Begun { call }),
        PartReply::Waits { place, .. } => turn(TurnOutcome::Waits { call, place }),
        PartReply::Depth { turns } => turn(TurnOutcome::Depth { call, turns }),
        PartReply::QueueFull { .. } => turn(TurnOutcome::QueueFull { call }),
        PartReply::PartFull => Outcome::PartFull { call },
        PartReply::NoHost { version } => Outcome::NoHost { call, version },
        PartReply::Elsewhere { version, owner } => Outcome::Elsewhere {
            call,
            version,
            member: owner.member,
        },
        PartReply::Behind { seen } => Outcome::Behind { call, seen },
        PartReply::AlreadyEnded => turn(TurnOutcome::AlreadyEnded { call }),
        PartReply::Stopped => Outcome::Stopped,
        _ => nothing(),
    }
}

/// The outcome of a hold or a release.
pub fn hold_outcome(reply: PartReply) -> Outcome
    ensures { result ≡ hold_outcome reply }
{
    match reply {
        PartReply::Held { .. } => turn(TurnOutcome::Held),
        PartReply::NotActive => turn(TurnOutcome::NotActive),
        PartReply::Released => turn(TurnOutcome::Released),
        PartReply::NotHeld => turn(TurnOutcome::NotHeld),
        PartReply::Stopped => Outcome::Stopped,
        _ => nothing(),
    }
}

/// The outcome of a Lock or an Update that changed its part.
fn seen_outcome(receipt: Receipt) -> Outcome
    ensures { result ≡ seen_outcome receipt receipt.stage }
{
    let version = receipt.version();
    match receipt.stage() {
        SeenStage::Locked => Outcome::Locked { version },
        SeenStage::Draining => Outcome::Updated {
            version,
            drained: false,
        },
        SeenStage::Drained => Outcome::Updated {
            version,
            drained: true,
        },
        _ => Outcome::Ignored,
    }
}

/// The outcome of a message that is delivered.
pub fn told_outcome(reply: PartReply) -> Outcome
    ensures { result ≡ told_outcome reply }
{
    match reply {
        PartReply::TableStep { receipt, changed } => {
            if changed {
                seen_outcome(receipt)
            } else {
                Outcome::Ignored
            }
        }
        PartReply::Opened {
            receipt,
            begun,
            moved,
        } => Outcome::Opened {
            version: receipt.version(),
            begun,
            moved,
        },
        PartReply::NotDrained { receipt } => Outcome::NotDrained {
            version: receipt.version(),
        },
        PartReply::Stopped => Outcome::Stopped,
        _ => Outcome::Ignored,
    }
}

/// How many turns a part's Tick ended.
pub fn ended_turns(reply: PartReply) -> u32
    ensures { result ≡ ended_turns reply }
{
    match reply {
        PartReply::Ticked { ended, .. } => ended,
        _ => 0,
    }
}

/// The outcome for a part that is to give up an actor.
pub fn closing_outcome(reply: PartReply) -> Outcome
    ensures { result ≡ closing_outcome reply }
{
    match reply {
        PartReply::Close { key } => Outcome::Closing { key },
        PartReply::NoneClosing => Outcome::NoneClosing,
        PartReply::Stopped => Outcome::Stopped,
        _ => nothing(),
    }
}

/// The outcome for a part that is to stop.
pub fn stop_outcome(reply: PartReply) -> Outcome
    ensures { result ≡ stop_outcome reply }
{
    match reply {
        PartReply::StoppedNow { .. } => Outcome::Stopped,
        _ => nothing(),
    }
}

/// What the placement says of a lost member.
pub fn lost_outcome(member: Member, reply: PlaceReply) -> Outcome
    ensures { result ≡ lost_outcome member reply }
{
    match reply {
        PlaceReply::Gone => Outcome::Lost { member },
        PlaceReply::NotMember { greatest } => Outcome::NotMember { greatest },
        _ => nothing(),
    }
}

/// What the placement says of a Tick.
pub fn dropped_outcome(reply: PlaceReply) -> Outcome
    ensures { result ≡ dropped_outcome reply }
{
    match reply {
        PlaceReply::Ticked { dropped } => Outcome::Dropped { members: dropped },
        _ => nothing(),
    }
}
