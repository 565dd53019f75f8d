// The actors of all parts whose time is over.
ghost use Rattle.std.specs.Prelude.{◌≡◌, ◌≤◌};
ghost use Rattle.sidecar_node.specs.Nodes.{IsSeatsOf};
ghost use Rattle.clock_turns.specs.Closings.{ClosesCells, turn_end, ClosingTurn, TickCause};

use crate::closing_stand::Stand;
use crate::counting::either;
use crate::ends::TickEnd;
use crate::taking::{Taken, take_one};
use actor_ports::{Clock, Dial};
use exchanges::Links;
use sidecar_node::Desk;
use std::sync::Wait;

/// What the deactivations came to.
#[derive(Drop)]
pub struct Closings {
    /// Whether the connection to the application failed at least once.
    pub faulted: bool,
    /// What ended them before the last part was through, if something did.
    pub end: Option<TickEnd>,
}

/// Takes every actor that may be deactivated at this moment, part by part in order, and deactivates it: its timers are
/// dropped, the application is told, and its part is told that this is over, whatever came back. A fault of the
/// application's connection doesn't end it.
pub fn close_cells<R: Wait, A: Dial, P: Dial, S: Dial, K: Clock>(
    desk: &mut Desk<'_, R, Links<A, P, S>, K>,
    now: u64,
) -> Closings
    requires { IsSeatsOf desk.old.node.now desk.old.seats }
    ensures node { desk.new.node.now ≡ desk.old.node.now }
    ensures seats { IsSeatsOf desk.old.node.now desk.new.seats }
    ensures closes { ClosesCells desk.old.node.now desk.old.links.app_at now desk.old.seats desk.new.seats (A.dialled desk.old.links.app) (A.dialled desk.new.links.app) (A.dial_faults desk.old.links.app) (A.dial_faults desk.new.links.app) result.faulted result.end }
    ensures clock { desk.new.clock ≡ desk.old.clock }
    ensures places { (desk.new.links.app_at ≡ desk.old.links.app_at) × (desk.new.links.store_at ≡ desk.old.links.store_at) }
    ensures others { (desk.new.links.peers ≡ desk.old.links.peers) × (desk.new.links.store ≡ desk.old.links.store) }
{
    let node = desk.node;
    let mut part = 0usize;
    let mut faulted = false;
    for _ in desk.rt.forever() {
        if part >= node.parts() {
            return Closings { faulted, end: None };
        }
        let taken = take_one(desk, part, now);
        let Taken {
            faulted: fault,
            stand,
        } = taken;
        faulted = either(faulted, fault);
        match stand {
            Stand::On { part: next } => part = next,
            Stand::Over { end } => {
                return Closings {
                    faulted,
                    end: Some(end),
                };
            }
        }
    }
    unreachable!()
}

// How the turn ends.
fn turn_end(closings: Closings) -> TickEnd
    ensures { result ≡ turn_end closings.faulted closings.end }
{
    let Closings { faulted, end } = closings;
    match end {
        Some(end) => end,
        None => {
            if faulted {
                TickEnd::AppFault
            } else {
                TickEnd::Done { turns: 0 }
            }
        }
    }
}

/// A sidecar deactivates the actors whose time is over: for each of them one TakeClosing, one DropActor, one exchange with
/// the application and one Closed. `Done` says that no part had one left; `AppFault` the same, with a fault of the
/// application's connection on the way. `Stopped`, `Spent` and `OutOfMemory` end the turn, once what was begun is over.
pub fn closing_turn<R: Wait, A: Dial, P: Dial, S: Dial, K: Clock>(
    desk: &mut Desk<'_, R, Links<A, P, S>, K>,
) -> TickEnd
    requires { IsSeatsOf desk.old.node.now desk.old.seats }
    ensures node { desk.new.node.now ≡ desk.old.node.now }
    ensures seats { IsSeatsOf desk.old.node.now desk.new.seats }
    ensures turn { ClosingTurn desk.old.node.now desk.old.links.app_at (K.shown desk.new.clock) desk.old.seats desk.new.seats (A.dialled desk.old.links.app) (A.dialled desk.new.links.app) (A.dial_faults desk.old.links.app) (A.dial_faults desk.new.links.app) result }
    ensures cause { TickCause (A.dial_faults desk.old.links.app) (A.dial_faults desk.new.links.app) result }
    ensures clock { K.shown desk.old.clock ≤ K.shown desk.new.clock }
    ensures places { (desk.new.links.app_at ≡ desk.old.links.app_at) × (desk.new.links.store_at ≡ desk.old.links.store_at) }
    ensures others { (desk.new.links.peers ≡ desk.old.links.peers) × (desk.new.links.store ≡ desk.old.links.store) }
{
    let now = desk.clock.now_ms();
    let closings = close_cells(desk, now);
    turn_end(closings)
}
