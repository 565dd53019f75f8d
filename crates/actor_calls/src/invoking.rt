// A call of an actor's method.
ghost use Rattle.std.specs.Prelude.{◌≡◌, List};
ghost use Rattle.sidecar_node.specs.Entries.{PartEntry};
ghost use Rattle.sidecar_node.specs.Nodes.{part_at, host_of, IsSeatsOf, ActsAt};
ghost use Rattle.exchanges.specs.Exchanges.{Exchange, Dialling};
ghost use Rattle.actor_calls.specs.Serving.{IsInvoked};

use crate::asking::ask_here;
use crate::hopping::hop_on;
use crate::invoke::Invoke;
use crate::next::Next;
use actor_ports::{Clock, Dial};
use actors_api::{ApiReply, Side};
use exchanges::Links;
use http_edge::HttpRequest;
use member_core::Route;
use sidecar_node::Desk;
use std::sync::Wait;

/// Serves a call of an actor's method that came on this port. If the actor belongs to another member, a peer is told so,
/// and a caller's request is handed on. Want of memory is answered as a refusal.
pub fn serve_invoke<R: Wait, A: Dial, P: Dial, S: Dial, K: Clock>(
    desk: &mut Desk<'_, R, Links<A, P, S>, K>,
    side: Side,
    invoke: &Invoke,
    request: &HttpRequest,
) -> ApiReply
    requires { IsSeatsOf desk.old.node.now desk.old.seats }
    ensures node { desk.new.node.now ≡ desk.old.node.now }
    ensures seats { IsSeatsOf desk.old.node.now desk.new.seats }
    ensures invoked { (es : List PartEntry) × (xs : List Exchange) × (ys : List Exchange) × ActsAt (part_at desk.old.node.now invoke.now.actor) es desk.old.seats desk.new.seats
        × Dialling xs (A.dialled desk.old.links.app) (A.dialled desk.new.links.app) (A.dial_faults desk.old.links.app) (A.dial_faults desk.new.links.app)
        × Dialling ys (P.dialled desk.old.links.peers) (P.dialled desk.new.links.peers) (P.dial_faults desk.old.links.peers) (P.dial_faults desk.new.links.peers)
        × IsInvoked (part_at desk.old.node.now invoke.now.actor) desk.new.seats (host_of desk.old.node.now).member desk.old.links.app_at invoke.now request.now side (K.shown desk.old.clock) (K.shown desk.new.clock) es xs ys result }
    ensures places { (desk.new.links.app_at ≡ desk.old.links.app_at) × (desk.new.links.store_at ≡ desk.old.links.store_at) }
    ensures store { desk.new.links.store ≡ desk.old.links.store }
{
    let least = invoke.least;
    match ask_here(desk, invoke, request, least) {
        Next::Answered { reply } => reply,
        Next::Moves { version, owner } => match side {
            Side::Peer => ApiReply::Elsewhere { version, owner },
            Side::Caller => hop_on(desk, invoke, request, Route::start(), version, owner),
        },
    }
}
