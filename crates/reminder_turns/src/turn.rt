// All pages of due reminders.
ghost use Rattle.std.specs.Prelude.{◌≡◌};
ghost use Rattle.sidecar_node.specs.Nodes.{IsSeatsOf};
ghost use Rattle.reminder_turns.specs.Pages.{ReminderTurn, TickCause};

use crate::ends::TickEnd;
use crate::paging::{Paged, take_page};
use crate::running::either;
use crate::standing::{Stand, done_end};
use actor_ports::{Clock, Dial};
use exchanges::Links;
use sidecar_node::Desk;
use std::sync::Wait;

/// A sidecar runs the reminders that are due. It asks the store for them page by page, each page behind the last entry of
/// the one before, until a page is empty. The actor of each reminder is asked for a turn; if it begins, the application's
/// callback is called and the turn ended, and the store is told that the reminder has fired, unless the application wasn't
/// reached. `Done` says that the last page was empty, and counts the calls begun, up to 4,294,967,295; `AppFault` the same,
/// with a fault of the application's connection on the way. Any other end breaks the call off, once a turn that began has
/// ended: a fault or a refusal of the store, an answer of it that has no reading, a part that has stopped or is spent, a
/// gate that took no further entry, or want of memory. Any other refusal of a turn ends that turn alone.
pub fn reminder_turn<R: Wait, A: Dial, P: Dial, S: Dial, K: Clock>(
    desk: &mut Desk<'_, R, Links<A, P, S>, K>,
) -> TickEnd
    requires { IsSeatsOf desk.old.node.now desk.old.seats }
    ensures node { desk.new.node.now ≡ desk.old.node.now }
    ensures seats { IsSeatsOf desk.old.node.now desk.new.seats }
    ensures turn { ReminderTurn desk.old.node.now desk.old.links.app_at desk.old.links.store_at (K.shown desk.old.clock) (K.shown desk.new.clock) desk.old.seats desk.new.seats
        (A.dialled desk.old.links.app) (A.dialled desk.new.links.app) (A.dial_faults desk.old.links.app) (A.dial_faults desk.new.links.app)
        (S.dialled desk.old.links.store) (S.dialled desk.new.links.store) (S.dial_faults desk.old.links.store) (S.dial_faults desk.new.links.store) result }
    ensures cause { TickCause (A.dial_faults desk.old.links.app) (A.dial_faults desk.new.links.app) (S.dial_faults desk.old.links.store) (S.dial_faults desk.new.links.store) result }
    ensures places { (desk.new.links.app_at ≡ desk.old.links.app_at) × (desk.new.links.store_at ≡ desk.old.links.store_at) }
    ensures peers { desk.new.links.peers ≡ desk.old.links.peers }
{
    let mut place = None;
    let mut turns = 0u32;
    let mut faulted = false;
    for _ in desk.rt.forever() {
        let paged = take_page(desk, place);
        let Paged {
            turns: more,
            faulted: fault,
            next,
        } = paged;
        turns = turns.saturating_add(more);
        faulted = either(faulted, fault);
        match next {
            Stand::Last => return done_end(turns, faulted),
            Stand::Over { end } => return end,
            Stand::On { place: behind } => place = behind,
        }
    }
    unreachable!()
}
