// How many turns a step of a part began and ended.
ghost use Rattle.std.specs.Prelude.{◌≡◌};
ghost use Rattle.cluster_parts.specs.Views.{closes, is_ended, tally_of};

use part_core::PartReply;
use part_model::PartEvent;

/// How many turns a step began and ended.
#[derive(Clone, Copy)]
pub(crate) struct Tally {
    pub(crate) began: u64,
    pub(crate) ended: u64,
}

/// Whether the event is a Tick or a stop, which end turns of their own accord.
pub(crate) fn closes(event: &PartEvent) -> bool
    ensures { result ≡ closes event.now }
{
    match event {
        PartEvent::Tick { .. } => true,
        PartEvent::StopPart => true,
        _ => false,
    }
}

/// Whether a call's end ended its turn.
fn is_ended(reply: &PartReply) -> bool
    ensures { result ≡ is_ended reply.now }
{
    match reply {
        PartReply::Ended { .. } => true,
        _ => false,
    }
}

/// The tally of a step that reports `count` calls.
pub(crate) fn tally_of(closes: bool, reply: &PartReply, count: u64) -> Tally
    ensures { result ≡ tally_of closes (is_ended reply.now) count }
{
    if closes {
        return Tally {
            began: 0,
            ended: count,
        };
    }
    Tally {
        began: count,
        ended: if is_ended(reply) { 1 } else { 0 },
    }
}
