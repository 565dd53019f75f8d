// One request, whatever it asks for.
ghost use Rattle.std.specs.Prelude.{◌≡◌, List};
ghost use Rattle.sidecar_node.specs.Entries.{NodeEntry};
ghost use Rattle.sidecar_node.specs.Nodes.{IsSeatsOf, Acts};
ghost use Rattle.exchanges.specs.Exchanges.{Exchange, Dialling};
ghost use Rattle.sidecar_requests.specs.Requests.{IsRequestServed};

use crate::record::serve_record;
use actor_calls::{Invoke, serve_forwarded, serve_invoke};
use actor_ports::{Clock, Dial};
use actors_api::{ApiCommand, ApiReply, Side, read_api};
use exchanges::Links;
use http_edge::HttpRequest;
use sidecar_node::Desk;
use std::sync::Wait;

/// Serves a request that came on this port: it is read once, and then refused, or served as a call of a caller or of
/// another sidecar, or served as a request of state, timers or reminders. Want of memory is answered as a refusal.
pub fn serve_one<R: Wait, A: Dial, P: Dial, S: Dial, K: Clock>(
    desk: &mut Desk<'_, R, Links<A, P, S>, K>,
    side: Side,
    request: &HttpRequest,
) -> ApiReply
    requires { IsSeatsOf desk.old.node.now desk.old.seats }
    ensures node { desk.new.node.now ≡ desk.old.node.now }
    ensures seats { IsSeatsOf desk.old.node.now desk.new.seats }
    ensures served { (ns : List NodeEntry) × (xs : List Exchange) × (ys : List Exchange) × (zs : List Exchange) × Acts ns desk.old.seats desk.new.seats
        × Dialling xs (A.dialled desk.old.links.app) (A.dialled desk.new.links.app) (A.dial_faults desk.old.links.app) (A.dial_faults desk.new.links.app)
        × Dialling ys (P.dialled desk.old.links.peers) (P.dialled desk.new.links.peers) (P.dial_faults desk.old.links.peers) (P.dial_faults desk.new.links.peers)
        × Dialling zs (S.dialled desk.old.links.store) (S.dialled desk.new.links.store) (S.dial_faults desk.old.links.store) (S.dial_faults desk.new.links.store)
        × IsRequestServed desk.old.node.now desk.old.links.app_at desk.old.links.store_at side request.now desk.new.seats (K.shown desk.old.clock) (K.shown desk.new.clock) ns xs ys zs result }
    ensures places { (desk.new.links.app_at ≡ desk.old.links.app_at) × (desk.new.links.store_at ≡ desk.old.links.store_at) }
{
    let now = desk.clock.now_ms();
    match read_api(
        desk.alloc,
        &desk.node.host().member.space,
        side,
        request,
        now,
    ) {
        Err(refusal) => ApiReply::Refused { refusal },
        Ok(command) => match command {
            ApiCommand::Invoke {
                actor,
                method,
                chain,
                least,
                call,
            } => {
                let invoke = Invoke {
                    actor,
                    method,
                    chain,
                    least,
                };
                match call {
                    None => serve_invoke(desk, side, &invoke, request),
                    Some(call) => serve_forwarded(desk, side, &call, &invoke, request),
                }
            }
            other => serve_record(desk, other),
        },
    }
}
