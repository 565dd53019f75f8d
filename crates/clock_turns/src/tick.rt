// A tick.
ghost use Rattle.std.specs.Prelude.{◌≡◌, ◌≤◌};
ghost use Rattle.sidecar_node.specs.Nodes.{IsSeatsOf};
ghost use Rattle.clock_turns.specs.Closings.{TickCause};
ghost use Rattle.clock_turns.specs.Ticks.{tick_end, TickTurn};

use crate::closing::{Closings, close_cells};
use crate::counting::either;
use crate::ends::TickEnd;
use crate::timers::{Firings, fire_timers};
use actor_ports::{Clock, Dial};
use exchanges::Links;
use sidecar_node::Desk;
use std::sync::Wait;

// How the tick ends.
fn tick_end(turns: u32, faulted: bool, end: Option<TickEnd>) -> TickEnd
    ensures { result ≡ tick_end turns faulted end }
{
    match end {
        Some(end) => end,
        None => {
            if faulted {
                TickEnd::AppFault
            } else {
                TickEnd::Done { turns }
            }
        }
    }
}

/// A sidecar's tick. First it deactivates the actors whose time is over, as `closing_turn` does. Then the timers fire that
/// are due at one moment of the clock: on each book in order Due after Due, until none is due. After each timer come a
/// Started and, if that finds the registration, a turn and a Finished, however the turn ended. On Begun a turn has one
/// more Started, one exchange with the application if that finds the registration, and its End.
///
/// `Done` counts the calls that began; `AppFault` comes in its place if the application's connection failed on the way.
/// `Stopped`, `Spent` and `OutOfMemory` end the tick, once what was begun is over. Any other refusal of an Ask ends that
/// timer's turn alone.
pub fn tick_turn<R: Wait, A: Dial, P: Dial, S: Dial, K: Clock>(
    desk: &mut Desk<'_, R, Links<A, P, S>, K>,
) -> TickEnd
    requires { IsSeatsOf desk.old.node.now desk.old.seats }
    ensures node { desk.new.node.now ≡ desk.old.node.now }
    ensures seats { IsSeatsOf desk.old.node.now desk.new.seats }
    ensures turn { TickTurn desk.old.node.now desk.old.links.app_at desk.old.seats desk.new.seats (A.dialled desk.old.links.app) (A.dialled desk.new.links.app) (A.dial_faults desk.old.links.app) (A.dial_faults desk.new.links.app) (K.shown desk.old.clock) (K.shown desk.new.clock) result }
    ensures cause { TickCause (A.dial_faults desk.old.links.app) (A.dial_faults desk.new.links.app) result }
    ensures clock { K.shown desk.old.clock ≤ K.shown desk.new.clock }
    ensures places { (desk.new.links.app_at ≡ desk.old.links.app_at) × (desk.new.links.store_at ≡ desk.old.links.store_at) }
    ensures others { (desk.new.links.peers ≡ desk.old.links.peers) × (desk.new.links.store ≡ desk.old.links.store) }
{
    let now = desk.clock.now_ms();
    let closings = close_cells(desk, now);
    let Closings { faulted, end } = closings;
    match end {
        Some(end) => end,
        None => {
            let later = desk.clock.now_ms();
            let fired = fire_timers(desk, later);
            let Firings {
                turns,
                faulted: more,
                end,
            } = fired;
            let faulted = either(faulted, more);
            tick_end(turns, faulted, end)
        }
    }
}
