// The timers of all books that are due.
ghost use Rattle.std.specs.Prelude.{◌≡◌, ◌<◌, ◌≤◌};
ghost use Rattle.sidecar_node.specs.Nodes.{IsSeatsOf};
ghost use Rattle.clock_turns.specs.Ticks.{FiresTimers};

use crate::counting::{either, more_if};
use crate::due::{Firing, take_due};
use crate::ends::TickEnd;
use crate::tick_stand::Stand;
use actor_ports::{Clock, Dial};
use exchanges::Links;
use sidecar_node::Desk;
use std::sync::Wait;

/// What the timers came to.
#[derive(Drop)]
pub(crate) struct Firings {
    /// How many calls began, up to 4,294,967,295.
    pub(crate) turns: u32,
    /// Whether the connection to the application failed at least once.
    pub(crate) faulted: bool,
    /// What ended them before the last book was through, if something did.
    pub(crate) end: Option<TickEnd>,
}

/// Fires every timer that is due at this moment, book by book in order. The moment is in milliseconds since 1970.
pub(crate) fn fire_timers<R: Wait, A: Dial, P: Dial, S: Dial, K: Clock>(
    desk: &mut Desk<'_, R, Links<A, P, S>, K>,
    now: u64,
) -> Firings
    requires seats { IsSeatsOf desk.old.node.now desk.old.seats }
    requires now { now < 253370764800000 }
    ensures node { desk.new.node.now ≡ desk.old.node.now }
    ensures seats { IsSeatsOf desk.old.node.now desk.new.seats }
    ensures fires { FiresTimers desk.old.node.now desk.old.links.app_at now desk.old.seats desk.new.seats (A.dialled desk.old.links.app) (A.dialled desk.new.links.app) (A.dial_faults desk.old.links.app) (A.dial_faults desk.new.links.app) (K.shown desk.old.clock) (K.shown desk.new.clock) result.turns result.faulted result.end }
    ensures clock { K.shown desk.old.clock ≤ K.shown desk.new.clock }
    ensures places { (desk.new.links.app_at ≡ desk.old.links.app_at) × (desk.new.links.store_at ≡ desk.old.links.store_at) }
    ensures others { (desk.new.links.peers ≡ desk.old.links.peers) × (desk.new.links.store ≡ desk.old.links.store) }
{
    let node = desk.node;
    let mut book = 0usize;
    let mut turns = 0u32;
    let mut faulted = false;
    for _ in desk.rt.forever() {
        if book >= node.parts() {
            return Firings {
                turns,
                faulted,
                end: None,
            };
        }
        let firing = take_due(desk, book, now);
        let Firing {
            begun,
            faulted: fault,
            stand,
        } = firing;
        turns = more_if(begun, turns);
        faulted = either(faulted, fault);
        match stand {
            Stand::On { book: next } => book = next,
            Stand::Over { end } => {
                return Firings {
                    turns,
                    faulted,
                    end: Some(end),
                };
            }
        }
    }
    unreachable!()
}
