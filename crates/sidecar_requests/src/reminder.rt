// Requests of an actor's reminders.
ghost use Rattle.std.specs.Prelude.{◌≡◌, List};
ghost use Rattle.sidecar_node.specs.Entries.{NodeEntry};
ghost use Rattle.sidecar_node.specs.Nodes.{IsSeatsOf, Acts};
ghost use Rattle.exchanges.specs.Exchanges.{Exchange, Dialling};
ghost use Rattle.sidecar_requests.specs.Serving.{IsWriteServed};

use crate::ask::StoreAsk;
use crate::asking::serve_asked;
use crate::outcomes::{refusal_of, refused};
use crate::stepping::draw_step;
use actor_names::ActorKey;
use actor_ports::{Clock, Dial};
use actors_api::{ApiRefusal, ApiReply};
use exchanges::Links;
use part_core::PartReply;
use sidecar_node::Desk;
use std::sync::Wait;

/// Serves a request that writes a reminder: one Draw, and one exchange.
pub(crate) fn serve_write<R: Wait, A: Dial, P: Dial, S: Dial, K: Clock>(
    desk: &mut Desk<'_, R, Links<A, P, S>, K>,
    actor: ActorKey,
    ask: StoreAsk,
) -> ApiReply
    requires { IsSeatsOf desk.old.node.now desk.old.seats }
    ensures node { desk.new.node.now ≡ desk.old.node.now }
    ensures seats { IsSeatsOf desk.old.node.now desk.new.seats }
    ensures served { (ns : List NodeEntry) × (xs : List Exchange) × Acts ns desk.old.seats desk.new.seats
        × Dialling xs (S.dialled desk.old.links.store) (S.dialled desk.new.links.store) (S.dial_faults desk.old.links.store) (S.dial_faults desk.new.links.store)
        × IsWriteServed desk.old.node.now desk.old.links.store_at desk.new.seats actor ask ns xs result }
    ensures places { (desk.new.links.app_at ≡ desk.old.links.app_at) × (desk.new.links.store_at ≡ desk.old.links.store_at) }
    ensures others { (desk.new.links.app ≡ desk.old.links.app) × (desk.new.links.peers ≡ desk.old.links.peers) }
    ensures clock { desk.new.clock ≡ desk.old.clock }
{
    match draw_step(desk.rt, desk.node, &mut desk.seats, &actor) {
        Err(_) => refused(ApiRefusal::Spent),
        Ok(reply) => match reply {
            PartReply::Drawn { n } => {
                let at = desk.links.store_at;
                let store = &mut desk.links.store;
                serve_asked(desk.alloc, desk.node, store, &at, actor, ask, n)
            }
            other => refused(refusal_of(other)),
        },
    }
}
