// One Ask on this member, and the turn that it begins.
ghost use Rattle.std.specs.Prelude.{◌≡◌, List};
ghost use Rattle.sidecar_node.specs.Entries.{PartEntry};
ghost use Rattle.sidecar_node.specs.Nodes.{part_at, IsSeatsOf, ActsAt};
ghost use Rattle.exchanges.specs.Exchanges.{Exchange, Dialling};
ghost use Rattle.actor_calls.specs.Turns.{IsAsked};

use crate::calling::call_app;
use crate::invoke::Invoke;
use crate::next::Next;
use crate::outcomes::{next_of, turn_answer};
use actor_ports::{Clock, Dial};
use actors_api::{ApiRefusal, ApiReply};
use exchanges::Links;
use http_edge::HttpRequest;
use part_core::PartReply;
use sidecar_node::{Desk, begin_turn, end_turn};
use std::sync::Wait;

/// Asks the actor's part for a turn, by an AskAt if there is a least version. A turn that begins has one exchange with the
/// application, under the chain that it was told, and its End, whatever came back.
pub(crate) fn ask_here<R: Wait, A: Dial, P: Dial, S: Dial, K: Clock>(
    desk: &mut Desk<'_, R, Links<A, P, S>, K>,
    invoke: &Invoke,
    request: &HttpRequest,
    least: Option<u64>,
) -> Next
    requires { IsSeatsOf desk.old.node.now desk.old.seats }
    ensures node { desk.new.node.now ≡ desk.old.node.now }
    ensures seats { IsSeatsOf desk.old.node.now desk.new.seats }
    ensures asked { (es : List PartEntry) × (xs : List Exchange) × ActsAt (part_at desk.old.node.now invoke.now.actor) es desk.old.seats desk.new.seats
        × Dialling xs (A.dialled desk.old.links.app) (A.dialled desk.new.links.app) (A.dial_faults desk.old.links.app) (A.dial_faults desk.new.links.app)
        × IsAsked (part_at desk.old.node.now invoke.now.actor) desk.new.seats desk.old.links.app_at invoke.now request.now least (K.shown desk.old.clock) (K.shown desk.new.clock) es xs result }
    ensures places { (desk.new.links.app_at ≡ desk.old.links.app_at) × (desk.new.links.store_at ≡ desk.old.links.store_at) }
    ensures others { (desk.new.links.peers ≡ desk.old.links.peers) × (desk.new.links.store ≡ desk.old.links.store) }
{
    let said = begin_turn(
        desk.rt,
        desk.alloc,
        desk.node,
        &mut desk.seats,
        &invoke.actor,
        invoke.chain.as_ref(),
        least,
        &mut desk.clock,
    );
    match said {
        Err(_) => Next::Answered {
            reply: ApiReply::Refused {
                refusal: ApiRefusal::Spent,
            },
        },
        Ok(reply) => match reply {
            PartReply::Begun { call, chain } => {
                let got = call_app(desk.alloc, &mut desk.links, invoke, request, chain.as_ref());
                let over = end_turn(
                    desk.rt,
                    desk.node,
                    &mut desk.seats,
                    &invoke.actor,
                    call,
                    &mut desk.clock,
                );
                Next::Answered {
                    reply: turn_answer(over, got),
                }
            }
            other => next_of(other),
        },
    }
}
