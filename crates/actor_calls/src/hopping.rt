// Hops of a caller's request from owner to owner.
ghost use Rattle.std.specs.Prelude.{◌≡◌, ◌≤◌, List, length};
ghost use Rattle.sidecar_node.specs.Entries.{PartEntry};
ghost use Rattle.sidecar_node.specs.Nodes.{part_at, host_of, IsSeatsOf, ActsAt};
ghost use Rattle.exchanges.specs.Exchanges.{Exchange, Dialling};
ghost use Rattle.actor_calls.specs.Hops.{IsForwarded, IsHop, IsRouted};

use crate::asking::ask_here;
use crate::calling::call_peer;
use crate::invoke::Invoke;
use crate::next::Next;
use crate::outcomes::{refusal_of, refused};
use actor_names::ActorKey;
use actor_ports::{Clock, Dial};
use actors_api::{ApiRefusal, ApiReply};
use call_names::CallName;
use exchanges::Links;
use http_edge::HttpRequest;
use member_core::{Hop, Route};
use part_core::PartReply;
use part_model::PartEvent;
use place_table::HostInfo;
use sidecar_node::Desk;
use std::sync::Wait;

// Hands the request on to the owner's sidecar, under a number that the part of its actor draws.
fn forward<R: Wait, A: Dial, P: Dial, S: Dial, K: Clock>(
    desk: &mut Desk<'_, R, Links<A, P, S>, K>,
    actor: &ActorKey,
    request: &HttpRequest,
    least: u64,
    owner: &HostInfo,
) -> Next
    requires { IsSeatsOf desk.old.node.now desk.old.seats }
    ensures node { desk.new.node.now ≡ desk.old.node.now }
    ensures seats { IsSeatsOf desk.old.node.now desk.new.seats }
    ensures forwarded { (es : List PartEntry) × (ys : List Exchange) × ActsAt (part_at desk.old.node.now actor.now) es desk.old.seats desk.new.seats
        × Dialling ys (P.dialled desk.old.links.peers) (P.dialled desk.new.links.peers) (P.dial_faults desk.old.links.peers) (P.dial_faults desk.new.links.peers)
        × IsForwarded (part_at desk.old.node.now actor.now) desk.new.seats (host_of desk.old.node.now).member request.now least owner.now es ys result }
    ensures places { (desk.new.links.app_at ≡ desk.old.links.app_at) × (desk.new.links.store_at ≡ desk.old.links.store_at) }
    ensures others { (desk.new.links.app ≡ desk.old.links.app) × (desk.new.links.store ≡ desk.old.links.store) }
    ensures clock { desk.new.clock ≡ desk.old.clock }
{
    let node = desk.node;
    let _parts = node.parts();
    let part = node.part_of(actor);
    match node.step_part(desk.rt, &mut desk.seats, part, PartEvent::Draw) {
        Err(_) => Next::Answered {
            reply: refused(ApiRefusal::Spent),
        },
        Ok(reply) => match reply {
            PartReply::Drawn { n } => {
                let name = CallName {
                    origin: node.host().member.copy(),
                    part: part as u8,
                    number: n,
                };
                let peers = &mut desk.links.peers;
                call_peer(desk.alloc, peers, request, least, owner, &name)
            }
            other => Next::Answered {
                reply: refused(refusal_of(&other)),
            },
        },
    }
}

// One hop: an AskAt here if the owner is this member, or else a Draw, and the request is handed on to the owner's
// sidecar.
fn hop_once<R: Wait, A: Dial, P: Dial, S: Dial, K: Clock>(
    desk: &mut Desk<'_, R, Links<A, P, S>, K>,
    invoke: &Invoke,
    request: &HttpRequest,
    least: u64,
    owner: &HostInfo,
) -> Next
    requires { IsSeatsOf desk.old.node.now desk.old.seats }
    ensures node { desk.new.node.now ≡ desk.old.node.now }
    ensures seats { IsSeatsOf desk.old.node.now desk.new.seats }
    ensures hop { (es : List PartEntry) × (xs : List Exchange) × (ys : List Exchange) × ActsAt (part_at desk.old.node.now invoke.now.actor) es desk.old.seats desk.new.seats
        × Dialling xs (A.dialled desk.old.links.app) (A.dialled desk.new.links.app) (A.dial_faults desk.old.links.app) (A.dial_faults desk.new.links.app)
        × Dialling ys (P.dialled desk.old.links.peers) (P.dialled desk.new.links.peers) (P.dial_faults desk.old.links.peers) (P.dial_faults desk.new.links.peers)
        × IsHop (part_at desk.old.node.now invoke.now.actor) desk.new.seats (host_of desk.old.node.now).member desk.old.links.app_at invoke.now request.now least owner.now (K.shown desk.old.clock) (K.shown desk.new.clock) es xs ys result }
    ensures places { (desk.new.links.app_at ≡ desk.old.links.app_at) × (desk.new.links.store_at ≡ desk.old.links.store_at) }
    ensures store { desk.new.links.store ≡ desk.old.links.store }
{
    let node = desk.node;
    if owner.member == node.host().member {
        return ask_here(desk, invoke, request, Some(least));
    }
    forward(desk, &invoke.actor, request, least, owner)
}

/// Hops from owner to owner until the request is answered or the route refuses a hop.
pub(crate) fn hop_on<R: Wait, A: Dial, P: Dial, S: Dial, K: Clock>(
    desk: &mut Desk<'_, R, Links<A, P, S>, K>,
    invoke: &Invoke,
    request: &HttpRequest,
    mut route: Route,
    version: u64,
    owner: HostInfo,
) -> ApiReply
    requires seats { IsSeatsOf desk.old.node.now desk.old.seats }
    requires few { length route ≤ 7 }
    ensures node { desk.new.node.now ≡ desk.old.node.now }
    ensures seats { IsSeatsOf desk.old.node.now desk.new.seats }
    ensures routed { (es : List PartEntry) × (xs : List Exchange) × (ys : List Exchange) × ActsAt (part_at desk.old.node.now invoke.now.actor) es desk.old.seats desk.new.seats
        × Dialling xs (A.dialled desk.old.links.app) (A.dialled desk.new.links.app) (A.dial_faults desk.old.links.app) (A.dial_faults desk.new.links.app)
        × Dialling ys (P.dialled desk.old.links.peers) (P.dialled desk.new.links.peers) (P.dial_faults desk.old.links.peers) (P.dial_faults desk.new.links.peers)
        × IsRouted (part_at desk.old.node.now invoke.now.actor) desk.new.seats (host_of desk.old.node.now).member desk.old.links.app_at invoke.now request.now route version owner (K.shown desk.old.clock) (K.shown desk.new.clock) es xs ys result }
    ensures places { (desk.new.links.app_at ≡ desk.old.links.app_at) × (desk.new.links.store_at ≡ desk.old.links.store_at) }
    ensures store { desk.new.links.store ≡ desk.old.links.store }
{
    match route.hop(version, owner) {
        Hop::NotRising { last, version } => ApiReply::Refused {
            refusal: ApiRefusal::NotRising { last, version },
        },
        Hop::Moved { versions } => ApiReply::Refused {
            refusal: ApiRefusal::Moved { versions },
        },
        Hop::Go { owner: to, least } => match hop_once(desk, invoke, request, least, &to) {
            Next::Answered { reply } => reply,
            Next::Moves { version, owner } => {
                hop_on(desk, invoke, request, route, version, owner)
            }
        },
    }
}
