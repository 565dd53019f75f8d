// A request of an actor's timers.
ghost use Rattle.std.specs.Prelude.{◌≡◌, [], List};
ghost use Rattle.timer_book.specs.declared.event.TimerEvent.TheVariants.{Set, Delete};
ghost use Rattle.sidecar_node.specs.Entries.{NodeEntry};
ghost use Rattle.sidecar_node.specs.Nodes.{IsSeatsOf, Acts};
ghost use Rattle.sidecar_requests.specs.Serving.{IsTimerServed};

use crate::outcomes::{refusal_of, refused, timer_answer};
use crate::stepping::{Keys, hold_step, release_step, two_keys};
use actor_names::{ActorKey, RecordName};
use actor_ports::{Clock, Dial};
use actors_api::{ApiRefusal, ApiReply};
use exchanges::Links;
use part_core::PartReply;
use sidecar_node::{Desk, Seats, SidecarNode};
use std::sync::Wait;
use timer_book::{Timer, TimerEvent};

// One Hold; if the actor is held then, one call on the book of timers of its part, and one Release.
fn hold_timer<R: Wait, K: Clock>(
    rt: &R,
    node: &SidecarNode,
    seats: &mut Seats,
    keys: Keys,
    event: TimerEvent,
    clock: &mut K,
) -> ApiReply
    requires seats { IsSeatsOf node.now seats.old }
    requires release { keys.release ≡ keys.hold }
    ensures seats { IsSeatsOf node.now seats.new }
    ensures served { (ns : List NodeEntry) × Acts ns seats.old seats.new
        × IsTimerServed node.now seats.new keys.hold event (K.shown clock.old) (K.shown clock.new) ns [] result }
{
    let Keys { hold, release } = keys;
    match hold_step(rt, node, seats, hold) {
        Err(_) => refused(ApiRefusal::Spent),
        Ok(reply) => match reply {
            PartReply::Held { .. } => {
                let part = node.part_of(&release);
                let got = node.step_book(rt, seats, part, event);
                let said = release_step(rt, node, seats, release, clock);
                timer_answer(said, got)
            }
            other => refused(refusal_of(other)),
        },
    }
}

/// Registers a timer: one Hold, one Set on the book of timers of the actor's part, one Release.
pub(crate) fn set_timer<R: Wait, A: Dial, P: Dial, S: Dial, K: Clock>(
    desk: &mut Desk<'_, R, Links<A, P, S>, K>,
    actor: ActorKey,
    name: RecordName,
    timer: Timer,
) -> ApiReply
    requires { IsSeatsOf desk.old.node.now desk.old.seats }
    ensures node { desk.new.node.now ≡ desk.old.node.now }
    ensures seats { IsSeatsOf desk.old.node.now desk.new.seats }
    ensures served { (ns : List NodeEntry) × Acts ns desk.old.seats desk.new.seats
        × IsTimerServed desk.old.node.now desk.new.seats actor (Set actor name timer) (K.shown desk.old.clock) (K.shown desk.new.clock) ns [] result }
    ensures places { (desk.new.links.app_at ≡ desk.old.links.app_at) × (desk.new.links.store_at ≡ desk.old.links.store_at) }
    ensures others { (desk.new.links.app ≡ desk.old.links.app) × (desk.new.links.peers ≡ desk.old.links.peers) }
    ensures store { desk.new.links.store ≡ desk.old.links.store }
{
    match two_keys(desk.alloc, &actor) {
        Err(_) => refused(ApiRefusal::OutOfMemory),
        Ok(keys) => {
            let event = TimerEvent::Set {
                key: actor,
                name,
                timer,
            };
            hold_timer(
                desk.rt,
                desk.node,
                &mut desk.seats,
                keys,
                event,
                &mut desk.clock,
            )
        }
    }
}

/// Removes a timer in the same way, by one Delete.
pub(crate) fn delete_timer<R: Wait, A: Dial, P: Dial, S: Dial, K: Clock>(
    desk: &mut Desk<'_, R, Links<A, P, S>, K>,
    actor: ActorKey,
    name: RecordName,
) -> ApiReply
    requires { IsSeatsOf desk.old.node.now desk.old.seats }
    ensures node { desk.new.node.now ≡ desk.old.node.now }
    ensures seats { IsSeatsOf desk.old.node.now desk.new.seats }
    ensures served { (ns : List NodeEntry) × Acts ns desk.old.seats desk.new.seats
        × IsTimerServed desk.old.node.now desk.new.seats actor (Delete actor name) (K.shown desk.old.clock) (K.shown desk.new.clock) ns [] result }
    ensures places { (desk.new.links.app_at ≡ desk.old.links.app_at) × (desk.new.links.store_at ≡ desk.old.links.store_at) }
    ensures others { (desk.new.links.app ≡ desk.old.links.app) × (desk.new.links.peers ≡ desk.old.links.peers) }
    ensures store { desk.new.links.store ≡ desk.old.links.store }
{
    match two_keys(desk.alloc, &actor) {
        Err(_) => refused(ApiRefusal::OutOfMemory),
        Ok(keys) => {
            let event = TimerEvent::Delete { key: actor, name };
            hold_timer(
                desk.rt,
                desk.node,
                &mut desk.seats,
                keys,
                event,
                &mut desk.clock,
            )
        }
    }
}
