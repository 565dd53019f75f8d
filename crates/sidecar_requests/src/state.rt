// A request of an actor's state.
ghost use Rattle.std.specs.Prelude.{◌≡◌, List};
ghost use Rattle.sidecar_node.specs.Entries.{NodeEntry};
ghost use Rattle.sidecar_node.specs.Nodes.{IsSeatsOf, Acts};
ghost use Rattle.exchanges.specs.Exchanges.{Exchange, Dialling};
ghost use Rattle.sidecar_requests.specs.Serving.{IsHeldExchange, IsHeldInVain, IsHeldWrite, WhileHeld, IsStateServed};

use crate::ask::StoreAsk;
use crate::asking::{ask_with, stamp_of};
use crate::outcomes::{held_answer, refusal_of, refused, unasked_answer};
use crate::stepping::{Keys, fence_step, hold_step, release_step, two_keys};
use actor_names::ActorKey;
use actor_ports::{Clock, Dial};
use actors_api::{ApiRefusal, ApiReply};
use exchanges::Links;
use part_core::PartReply;
use sidecar_node::{Desk, Seats, SidecarNode};
use std::sync::Wait;

// The actor is held, with this number: one exchange, of this epoch if it writes, and one Release.
fn exchange_held<R: Wait, A: Dial, P: Dial, S: Dial, K: Clock>(
    desk: &mut Desk<'_, R, Links<A, P, S>, K>,
    actor: ActorKey,
    release: ActorKey,
    ask: StoreAsk,
    n: u64,
    epoch: u64,
) -> ApiReply
    requires seats { IsSeatsOf desk.old.node.now desk.old.seats }
    requires release { release ≡ actor }
    ensures node { desk.new.node.now ≡ desk.old.node.now }
    ensures seats { IsSeatsOf desk.old.node.now desk.new.seats }
    ensures held { (ns : List NodeEntry) × (xs : List Exchange) × Acts ns desk.old.seats desk.new.seats
        × Dialling xs (S.dialled desk.old.links.store) (S.dialled desk.new.links.store) (S.dial_faults desk.old.links.store) (S.dial_faults desk.new.links.store)
        × IsHeldExchange desk.old.node.now desk.old.links.store_at desk.new.seats actor ask n epoch (K.shown desk.old.clock) (K.shown desk.new.clock) ns xs result }
    ensures places { (desk.new.links.app_at ≡ desk.old.links.app_at) × (desk.new.links.store_at ≡ desk.old.links.store_at) }
    ensures others { (desk.new.links.app ≡ desk.old.links.app) × (desk.new.links.peers ≡ desk.old.links.peers) }
{
    let wanted = ask.wanted();
    let stamp = stamp_of(desk.node, &actor, n);
    let at = desk.links.store_at;
    let store = &mut desk.links.store;
    let got = ask_with(desk.alloc, store, &at, actor, ask, stamp, epoch);
    let seats = &mut desk.seats;
    let said = release_step(desk.rt, desk.node, seats, release, &mut desk.clock);
    held_answer(wanted, said, got)
}

// The actor is held, and nothing is to be asked, because of this refusal: one Release.
fn hold_in_vain<R: Wait, K: Clock>(
    rt: &R,
    node: &SidecarNode,
    seats: &mut Seats,
    release: ActorKey,
    refusal: ApiRefusal,
    clock: &mut K,
) -> ApiReply
    requires seats { IsSeatsOf node.now seats.old }
    ensures seats { IsSeatsOf node.now seats.new }
    ensures vain { (ns : List NodeEntry) × Acts ns seats.old seats.new
        × IsHeldInVain node.now seats.new release refusal (K.shown clock.old) (K.shown clock.new) ns result }
{
    let said = release_step(rt, node, seats, release, clock);
    unasked_answer(said, refusal)
}

// The actor is held, with this number, and state is written: one Lock of version 0, which tells the epoch; one exchange,
// unless the Lock was refused; and one Release.
fn write_held<R: Wait, A: Dial, P: Dial, S: Dial, K: Clock>(
    desk: &mut Desk<'_, R, Links<A, P, S>, K>,
    actor: ActorKey,
    release: ActorKey,
    ask: StoreAsk,
    n: u64,
) -> ApiReply
    requires seats { IsSeatsOf desk.old.node.now desk.old.seats }
    requires release { release ≡ actor }
    ensures node { desk.new.node.now ≡ desk.old.node.now }
    ensures seats { IsSeatsOf desk.old.node.now desk.new.seats }
    ensures written { (ns : List NodeEntry) × (xs : List Exchange) × Acts ns desk.old.seats desk.new.seats
        × Dialling xs (S.dialled desk.old.links.store) (S.dialled desk.new.links.store) (S.dial_faults desk.old.links.store) (S.dial_faults desk.new.links.store)
        × IsHeldWrite desk.old.node.now desk.old.links.store_at desk.new.seats actor ask n (K.shown desk.old.clock) (K.shown desk.new.clock) ns xs result }
    ensures places { (desk.new.links.app_at ≡ desk.old.links.app_at) × (desk.new.links.store_at ≡ desk.old.links.store_at) }
    ensures others { (desk.new.links.app ≡ desk.old.links.app) × (desk.new.links.peers ≡ desk.old.links.peers) }
{
    match fence_step(desk.rt, desk.node, &mut desk.seats, &actor) {
        Err(_) => {
            let spent = ApiRefusal::Spent;
            let seats = &mut desk.seats;
            hold_in_vain(desk.rt, desk.node, seats, release, spent, &mut desk.clock)
        }
        Ok(reply) => match reply {
            PartReply::TableStep { receipt, .. } => {
                let epoch = receipt.opened();
                exchange_held(desk, actor, release, ask, n, epoch)
            }
            other => {
                let refusal = refusal_of(other);
                let seats = &mut desk.seats;
                hold_in_vain(desk.rt, desk.node, seats, release, refusal, &mut desk.clock)
            }
        },
    }
}

// The actor is held, with this number.
fn serve_held<R: Wait, A: Dial, P: Dial, S: Dial, K: Clock>(
    desk: &mut Desk<'_, R, Links<A, P, S>, K>,
    actor: ActorKey,
    release: ActorKey,
    ask: StoreAsk,
    n: u64,
) -> ApiReply
    requires seats { IsSeatsOf desk.old.node.now desk.old.seats }
    requires release { release ≡ actor }
    ensures node { desk.new.node.now ≡ desk.old.node.now }
    ensures seats { IsSeatsOf desk.old.node.now desk.new.seats }
    ensures served { (ns : List NodeEntry) × (xs : List Exchange) × Acts ns desk.old.seats desk.new.seats
        × Dialling xs (S.dialled desk.old.links.store) (S.dialled desk.new.links.store) (S.dial_faults desk.old.links.store) (S.dial_faults desk.new.links.store)
        × WhileHeld desk.old.node.now desk.old.links.store_at desk.new.seats actor ask n (K.shown desk.old.clock) (K.shown desk.new.clock) ns xs result }
    ensures places { (desk.new.links.app_at ≡ desk.old.links.app_at) × (desk.new.links.store_at ≡ desk.old.links.store_at) }
    ensures others { (desk.new.links.app ≡ desk.old.links.app) × (desk.new.links.peers ≡ desk.old.links.peers) }
{
    match ask {
        StoreAsk::Transact { ops } => {
            write_held(desk, actor, release, StoreAsk::Transact { ops }, n)
        }
        other => exchange_held(desk, actor, release, other, n, 0),
    }
}

/// Serves a request of the actor's state: one Hold, one Lock of version 0 if it writes, one exchange, one Release.
pub(crate) fn serve_state<R: Wait, A: Dial, P: Dial, S: Dial, K: Clock>(
    desk: &mut Desk<'_, R, Links<A, P, S>, K>,
    actor: ActorKey,
    ask: StoreAsk,
) -> ApiReply
    requires { IsSeatsOf desk.old.node.now desk.old.seats }
    ensures node { desk.new.node.now ≡ desk.old.node.now }
    ensures seats { IsSeatsOf desk.old.node.now desk.new.seats }
    ensures served { (ns : List NodeEntry) × (xs : List Exchange) × Acts ns desk.old.seats desk.new.seats
        × Dialling xs (S.dialled desk.old.links.store) (S.dialled desk.new.links.store) (S.dial_faults desk.old.links.store) (S.dial_faults desk.new.links.store)
        × IsStateServed desk.old.node.now desk.old.links.store_at desk.new.seats actor ask (K.shown desk.old.clock) (K.shown desk.new.clock) ns xs result }
    ensures places { (desk.new.links.app_at ≡ desk.old.links.app_at) × (desk.new.links.store_at ≡ desk.old.links.store_at) }
    ensures others { (desk.new.links.app ≡ desk.old.links.app) × (desk.new.links.peers ≡ desk.old.links.peers) }
{
    match two_keys(desk.alloc, &actor) {
        Err(_) => ApiReply::Refused {
            refusal: ApiRefusal::OutOfMemory,
        },
        Ok(keys) => {
            let Keys { hold, release } = keys;
            let said = hold_step(desk.rt, desk.node, &mut desk.seats, hold);
            match said {
                Err(_) => ApiReply::Refused {
                    refusal: ApiRefusal::Spent,
                },
                Ok(reply) => match reply {
                    PartReply::Held { n } => serve_held(desk, actor, release, ask, n),
                    other => refused(refusal_of(other)),
                },
            }
        }
    }
}
