// The report of a reminder that has fired.
ghost use Rattle.std.specs.Prelude.{◌≡◌, List};
ghost use Rattle.part_model.specs.declared.event.PartEvent.TheVariants.{Draw};
ghost use Rattle.sidecar_node.specs.Entries.{PartEntry, one_entry};
ghost use Rattle.sidecar_node.specs.Nodes.{part_at, IsSeatsOf, ActsAt, SpentAt};
ghost use Rattle.exchanges.specs.Exchanges.{Exchange, Dialling};
ghost use Rattle.exchanges.specs.Replies.{place_at};
ghost use Rattle.exchanges.specs.Asked.{IsStoreExchange};
ghost use Rattle.reminder_turns.specs.Reports.{stamp_of, fired_command, IsReport, ReportedFull};

use crate::results::Reported;
use actor_names::{ActorKey, Address};
use actor_ports::{Clock, Dial};
use exchanges::{Links, StoreEnd, ask_store};
use frame_wire::{Stamp, StoreAnswer, StoreCommand};
use part_core::PartReply;
use part_model::PartEvent;
use reminder_rows::DueKey;
use sidecar_node::{Desk, Seats, SidecarNode};
use std::alloc::Global;
use std::sync::Wait;
use step_gate::Spent;

// The stamp of a number that the actor's part drew.
fn stamp_of(node: &SidecarNode, actor: &ActorKey, n: u64) -> Stamp
    ensures { result ≡ stamp_of node.now actor.now n }
{
    let _parts = node.parts();
    let part = node.part_of(actor);
    Stamp {
        member: node.host().member,
        part: part as u8,
        number: n,
    }
}

// Tells the store that the reminder of this key has fired, with this number in the stamp.
fn tell_store<L: Dial>(
    alloc: Global,
    node: &SidecarNode,
    key: DueKey,
    n: u64,
    store: &mut L,
    at: &Address,
) -> Result<StoreAnswer, StoreEnd>
    ensures { (xs : List Exchange) × IsStoreExchange (fired_command node.now key n) (place_at at.now) xs result
        × Dialling xs (L.dialled store.old) (L.dialled store.new) (L.dial_faults store.old) (L.dial_faults store.new) }
{
    let stamp = stamp_of(node, &key.actor, n);
    let DueKey {
        moment,
        actor,
        name,
    } = key;
    let command = StoreCommand::Fired {
        stamp,
        actor,
        name,
        moment,
    };
    ask_store(alloc, store, at, command)
}

// The same for a key that is lent.
fn tell_fired<L: Dial>(
    alloc: Global,
    node: &SidecarNode,
    key: &DueKey,
    n: u64,
    store: &mut L,
    at: &Address,
) -> Result<StoreAnswer, StoreEnd>
    ensures { (xs : List Exchange) × IsStoreExchange (fired_command node.now key.now n) (place_at at.now) xs result
        × Dialling xs (L.dialled store.old) (L.dialled store.new) (L.dial_faults store.old) (L.dial_faults store.new) }
{
    match key.copy(alloc) {
        Err(_) => Err(StoreEnd::OutOfMemory),
        Ok(copy) => tell_store(alloc, node, copy, n, store, at),
    }
}

// One Draw on the actor's part.
fn draw_step<R: Wait>(
    rt: &R,
    node: &SidecarNode,
    seats: &mut Seats,
    actor: &ActorKey,
) -> Result<PartReply, Spent>
    requires { IsSeatsOf node.now seats.old }
    ensures seats { IsSeatsOf node.now seats.new }
    ensures entry { ActsAt (part_at node.now actor.now) (one_entry Draw result) seats.old seats.new }
    ensures spent { SpentAt (part_at node.now actor.now) result seats.new }
{
    let part = node.part_of(actor);
    node.step_part(rt, seats, part, PartEvent::Draw)
}

/// Reports that the reminder has fired: one Draw on the part of its actor and, if that drew a number, one exchange with
/// the store, stamped with it.
pub(crate) fn report<R: Wait, A: Dial, P: Dial, S: Dial, K: Clock>(
    desk: &mut Desk<'_, R, Links<A, P, S>, K>,
    key: &DueKey,
) -> Reported
    requires { IsSeatsOf desk.old.node.now desk.old.seats }
    ensures node { desk.new.node.now ≡ desk.old.node.now }
    ensures seats { IsSeatsOf desk.old.node.now desk.new.seats }
    ensures reports { (es : List PartEntry) × (xs : List Exchange) × ActsAt (part_at desk.old.node.now key.now.actor) es desk.old.seats desk.new.seats
        × Dialling xs (S.dialled desk.old.links.store) (S.dialled desk.new.links.store) (S.dial_faults desk.old.links.store) (S.dial_faults desk.new.links.store)
        × IsReport desk.old.node.now desk.old.links.store_at key.now es xs result }
    ensures full { ReportedFull (part_at desk.old.node.now key.now.actor) result desk.new.seats }
    ensures places { (desk.new.links.app_at ≡ desk.old.links.app_at) × (desk.new.links.store_at ≡ desk.old.links.store_at) }
    ensures others { (desk.new.links.app ≡ desk.old.links.app) × (desk.new.links.peers ≡ desk.old.links.peers) }
    ensures clock { desk.new.clock ≡ desk.old.clock }
{
    match draw_step(desk.rt, desk.node, &mut desk.seats, &key.actor) {
        Err(spent) => Reported::Undrawn { said: Err(spent) },
        Ok(reply) => match reply {
            PartReply::Drawn { n } => {
                let at = desk.links.store_at;
                let store = &mut desk.links.store;
                Reported::Told {
                    got: tell_fired(desk.alloc, desk.node, key, n, store, &at),
                }
            }
            other => Reported::Undrawn { said: Ok(other) },
        },
    }
}
