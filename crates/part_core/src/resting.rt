// Until when no actor may be idle: before that moment a part answers at once that it has no actor to deactivate.
ghost use Rattle.std.specs.Prelude.{◌≡◌};
ghost use Rattle.part_core.specs.Quiet.{idle_from, least_idle, rest_moment, lowered, rest_end, first_idle, quiet_after, is_early, gives_none};

use crate::holding::is_resting;
use crate::receipt::PartReply;
use crate::settings::idle_of;
use crate::shard::Shard;
use crate::standing::gives_some;
use part_cells::CellNumber;
use part_model::{ActorCell, PartEvent, Stage, TypeSettings};

/// From which moment on an actor of this idle time may be idle, if its last turn or hold ended at `last`.
fn idle_from(idle: u64, last: u64) -> u64
    ensures { result ≡ idle_from idle last }
{
    if idle == 0 {
        0
    } else {
        last.saturating_add(idle)
    }
}

/// The least idle time of all types, in milliseconds.
fn least_idle(kinds: &[TypeSettings]) -> u64
    ensures { result ≡ least_idle kinds.now }
{
    let mut least = 3600000;
    for settings in kinds {
        least = least.min(settings.idle_ms);
    }
    least
}

/// The moment at which turns or holds may end by the event.
fn rest_moment(event: &PartEvent) -> Option<u64>
    ensures { result ≡ rest_moment event.now }
{
    match event {
        PartEvent::End { now, .. } => Some(*now),
        PartEvent::Release { now, .. } => Some(*now),
        PartEvent::Tick { now } => Some(*now),
        _ => None,
    }
}

/// Whether the event asks for an actor to deactivate before this moment.
pub(crate) fn is_early(event: &PartEvent, quiet: u64) -> bool
    ensures { result ≡ is_early event.now quiet }
{
    match event {
        PartEvent::TakeClosing { now } => *now < quiet,
        _ => false,
    }
}

/// From which moment on an actor may be idle; `u64::MAX` if it doesn't rest.
#[derive(Drop)]
struct RestEnd<'a> {
    kinds: &'a [TypeSettings],
}

impl<'a> CellNumber for RestEnd<'a> {
    ghost number = { λ t c. rest_end t.kinds.now c };

    fn number(&self, cell: &ActorCell) -> u64 {
        if is_resting(cell) {
            idle_from(idle_of(self.kinds, &cell.key.kind), cell.last)
        } else {
            u64::MAX
        }
    }
}

impl Shard {
    /// From which moment on some actor may be idle.
    fn first_idle(&self) -> u64
        ensures { result ≡ first_idle self.now.state }
    {
        let kinds = self.standing.kinds.as_slice();
        self.actors.cells.least(&RestEnd { kinds })
    }

    /// Whether it runs, and has no active actor to give up to another owner.
    pub(crate) fn gives_none(&self) -> bool
        ensures { result ≡ gives_none self.now.state }
    {
        match self.standing.stage {
            Stage::Stopped => false,
            _ => !gives_some(&self.standing),
        }
    }

    /// What the event leaves of a moment before which no actor may be idle.
    pub(crate) fn lowered(&self, event: &PartEvent, quiet: u64) -> u64
        ensures { result ≡ lowered self.now.state.kinds event.now quiet }
    {
        match rest_moment(event) {
            None => quiet,
            Some(now) => quiet.min(idle_from(least_idle(self.standing.kinds.as_slice()), now)),
        }
    }

    /// The moment before which no actor may be idle, after a step with this reply that left the moment `quiet`.
    pub(crate) fn quiet_after(&self, reply: &PartReply, quiet: u64) -> u64
        ensures { result ≡ quiet_after self.now.state reply.now quiet }
    {
        match reply {
            PartReply::NoneClosing => self.first_idle(),
            _ => quiet,
        }
    }
}
