// A turn of an actor with one callback of its application: its beginning, the exchange, its End.
ghost use Rattle.std.specs.Prelude.{◌≡◌, List};
ghost use Rattle.std.specs.Option.{option_copied};
ghost use Rattle.sidecar_node.specs.Entries.{PartEntry};
ghost use Rattle.sidecar_node.specs.Nodes.{part_at, IsSeatsOf, ActsAt};
ghost use Rattle.exchanges.specs.Exchanges.{Exchange, Dialling};
ghost use Rattle.exchanges.specs.Replies.{IsHttpExchange, place_at};
ghost use Rattle.reminder_turns.specs.Callbacks.{remind_text, entry_text, IsTurn, TurnedFull};

use crate::results::Turned;
use actor_names::{Address, ChainId};
use actor_ports::{Clock, Dial};
use app_texts::{Callback, reminder_request};
use exchanges::{Links, exchange_at};
use frame_wire::DueEntry;
use http_edge::{EdgeError, HttpResponse};
use part_core::PartReply;
use sidecar_node::{Desk, begin_turn, end_turn};
use std::alloc::Global;
use std::sync::Wait;

// One exchange of this callback with the application at this address.
fn ask_app<L: Dial>(
    alloc: Global,
    app: &mut L,
    at: &Address,
    callback: &Callback<'_>,
) -> Result<HttpResponse, EdgeError>
    ensures { (xs : List Exchange)
        × IsHttpExchange (remind_text at.now callback.now.actor.now callback.now.name.now (option_copied callback.now.chain) (option_copied callback.now.payload) callback.now.due.now callback.now.period.now) (place_at at.now) xs result
        × Dialling xs (L.dialled app.old) (L.dialled app.new) (L.dial_faults app.old) (L.dial_faults app.new) }
{
    match reminder_request(alloc, at, callback) {
        Err(_) => Err(EdgeError::OutOfMemory),
        Ok(asked) => exchange_at(alloc, app, at, &asked),
    }
}

// The JSON text that was registered as data.
fn payload_of(entry: &DueEntry) -> Option<&[u8]>
    ensures { option_copied result ≡ entry.now.payload }
{
    match &entry.payload {
        None => None,
        Some(payload) => Some(payload.as_slice()),
    }
}

// Calls the reminder's callback at the application, under the chain of the turn.
fn call_back<L: Dial>(
    alloc: Global,
    app: &mut L,
    at: &Address,
    entry: &DueEntry,
    chain: Option<&ChainId>,
) -> Result<HttpResponse, EdgeError>
    ensures { (xs : List Exchange)
        × IsHttpExchange (entry_text at.now entry.now (option_copied chain.entry)) (place_at at.now) xs result
        × Dialling xs (L.dialled app.old) (L.dialled app.new) (L.dial_faults app.old) (L.dial_faults app.new) }
{
    let callback = Callback {
        actor: &entry.key.actor,
        name: &entry.key.name,
        chain,
        payload: payload_of(entry),
        due: entry.due.as_str(),
        period: entry.period.as_str(),
    };
    ask_app(alloc, app, at, &callback)
}

/// Asks the reminder's actor for a turn. A turn that begins has one exchange with the callback of the application, under the
/// chain that it was told, and one End, whatever came back.
pub(crate) fn take_turn<R: Wait, A: Dial, P: Dial, S: Dial, K: Clock>(
    desk: &mut Desk<'_, R, Links<A, P, S>, K>,
    entry: &DueEntry,
) -> Turned
    requires { IsSeatsOf desk.old.node.now desk.old.seats }
    ensures node { desk.new.node.now ≡ desk.old.node.now }
    ensures seats { IsSeatsOf desk.old.node.now desk.new.seats }
    ensures turn { (es : List PartEntry) × (xs : List Exchange) × ActsAt (part_at desk.old.node.now entry.now.key.actor) es desk.old.seats desk.new.seats
        × Dialling xs (A.dialled desk.old.links.app) (A.dialled desk.new.links.app) (A.dial_faults desk.old.links.app) (A.dial_faults desk.new.links.app)
        × IsTurn desk.old.links.app_at entry.now (K.shown desk.old.clock) (K.shown desk.new.clock) es xs result }
    ensures full { TurnedFull (part_at desk.old.node.now entry.now.key.actor) result desk.new.seats }
    ensures places { (desk.new.links.app_at ≡ desk.old.links.app_at) × (desk.new.links.store_at ≡ desk.old.links.store_at) }
    ensures others { (desk.new.links.peers ≡ desk.old.links.peers) × (desk.new.links.store ≡ desk.old.links.store) }
{
    let node = desk.node;
    let key = &entry.key.actor;
    let said = begin_turn(
        desk.rt,
        desk.alloc,
        node,
        &mut desk.seats,
        key,
        None,
        None,
        &mut desk.clock,
    );
    match said {
        Err(spent) => Turned::Refused { said: Err(spent) },
        Ok(reply) => match reply {
            PartReply::Begun { call, chain } => {
                let at = desk.links.app_at;
                let app = &mut desk.links.app;
                let got = call_back(desk.alloc, app, &at, entry, chain.as_ref());
                let seats = &mut desk.seats;
                let ended = end_turn(desk.rt, node, seats, key, call, &mut desk.clock);
                Turned::Called { got, ended }
            }
            other => Turned::Refused { said: Ok(other) },
        },
    }
}
