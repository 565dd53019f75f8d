// One actor's deactivation.
ghost use Rattle.std.specs.Prelude.{◌≡◌, ◌<◌, List, length};
ghost use Rattle.app_texts.specs.Texts.{deactivate_text};
ghost use Rattle.exchanges.specs.Exchanges.{Exchange, Dialling};
ghost use Rattle.exchanges.specs.Replies.{IsHttpExchange, place_at};
ghost use Rattle.sidecar_node.specs.Nodes.{part_gates, IsSeatsOf, Acts};
ghost use Rattle.clock_turns.specs.Closings.{Closing, IsTold, IsOwed, owed_entries, is_fault, closing_end};

use crate::closing_stand::{closing_end, is_fault};
use crate::ends::TickEnd;
use actor_names::{ActorKey, Address};
use actor_ports::{Clock, Dial, Waits};
use app_texts::deactivate_request;
use exchanges::{Links, exchange_waiting};
use http_edge::{EdgeError, HttpResponse};
use part_model::PartEvent;
use sidecar_node::Desk;
use std::alloc::Global;
use std::sync::Wait;
use timer_book::TimerEvent;

// How long an application has to take notice that an actor is no longer active. Then the actor counts as told.
const TOLD_WAITS: Waits = Waits {
    quiet_ms: None,
    message_ms: None,
    whole_ms: Some(10_000),
};

/// What a deactivation came to.
#[derive(Drop)]
pub(crate) struct Closed {
    pub(crate) faulted: bool,
    pub(crate) end: Option<TickEnd>,
}

// An equal key. It is tried for as long as there is no memory, since the part that has given up an actor has to hear
// that this is over.
fn copied<R: Wait>(rt: &R, alloc: Global, key: &ActorKey) -> ActorKey
    ensures { result ≡ key.now }
{
    for _ in rt.forever() {
        if let Ok(copy) = key.copy(alloc) {
            return copy;
        }
    }
    unreachable!()
}

// Tells the application at this address that an actor is no longer active.
fn tell_app<L: Dial>(
    alloc: Global,
    app: &mut L,
    at: &Address,
    key: &ActorKey,
) -> Result<HttpResponse, EdgeError>
    ensures { (xs : List Exchange)
        × IsHttpExchange (deactivate_text at.now key.now) (place_at at.now) xs result
        × Dialling xs (L.dialled app.old) (L.dialled app.new) (L.dial_faults app.old) (L.dial_faults app.new) }
{
    match deactivate_request(alloc, at, key) {
        Err(_) => Err(EdgeError::OutOfMemory),
        Ok(asked) => exchange_waiting(alloc, app, at, Some(TOLD_WAITS), &asked),
    }
}

/// Deactivates an actor that this part has given up: its timers are dropped, the application is told, and the part hears
/// that this is over, whatever came back.
pub(crate) fn close_cell<R: Wait, A: Dial, P: Dial, S: Dial, K: Clock>(
    desk: &mut Desk<'_, R, Links<A, P, S>, K>,
    part: usize,
    key: ActorKey,
) -> Closed
    requires seats { IsSeatsOf desk.old.node.now desk.old.seats }
    requires inside { part < length (part_gates desk.old.node.now) }
    ensures node { desk.new.node.now ≡ desk.old.node.now }
    ensures seats { IsSeatsOf desk.old.node.now desk.new.seats }
    ensures closing { (c : Closing) × (c.key ≡ key) × IsTold desk.old.links.app_at c × IsOwed part c desk.new.seats × Acts (owed_entries part c) desk.old.seats desk.new.seats
        × Dialling c.asked (A.dialled desk.old.links.app) (A.dialled desk.new.links.app) (A.dial_faults desk.old.links.app) (A.dial_faults desk.new.links.app)
        × (result.faulted ≡ is_fault c.got) × (result.end ≡ closing_end c.dropped c.closed c.got) }
    ensures clock { desk.new.clock ≡ desk.old.clock }
    ensures places { (desk.new.links.app_at ≡ desk.old.links.app_at) × (desk.new.links.store_at ≡ desk.old.links.store_at) }
    ensures others { (desk.new.links.peers ≡ desk.old.links.peers) × (desk.new.links.store ≡ desk.old.links.store) }
{
    let node = desk.node;
    let copy = copied(desk.rt, desk.alloc, &key);
    let event = TimerEvent::DropActor { key: copy };
    let dropped = node.step_book(desk.rt, &mut desk.seats, part, event);
    let at = desk.links.app_at;
    let got = tell_app(desk.alloc, &mut desk.links.app, &at, &key);
    let closed = node.step_part(desk.rt, &mut desk.seats, part, PartEvent::Closed { key });
    Closed {
        faulted: is_fault(&got),
        end: closing_end(&dropped, &closed, &got),
    }
}
