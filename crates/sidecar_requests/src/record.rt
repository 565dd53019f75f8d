// A request of an actor's state, timers or reminders.
ghost use Rattle.std.specs.Prelude.{◌≡◌, List};
ghost use Rattle.sidecar_node.specs.Entries.{NodeEntry};
ghost use Rattle.sidecar_node.specs.Nodes.{IsSeatsOf, Acts};
ghost use Rattle.exchanges.specs.Exchanges.{Exchange, Dialling};
ghost use Rattle.sidecar_requests.specs.Serving.{IsRecord, IsRecordServed};

use crate::ask::StoreAsk;
use crate::asking::serve_asked;
use crate::reminder::serve_write;
use crate::state::serve_state;
use crate::timer::{delete_timer, set_timer};
use actor_ports::{Clock, Dial};
use actors_api::{ApiCommand, ApiReply};
use exchanges::Links;
use sidecar_node::Desk;
use std::sync::Wait;

/// Serves a request of an actor's state, timers or reminders, which is any command but the call of a method. Nothing but
/// the store is dialled. Want of memory before a hold or a draw makes no entry; after a hold its release still follows,
/// and takes no memory.
pub fn serve_record<R: Wait, A: Dial, P: Dial, S: Dial, K: Clock>(
    desk: &mut Desk<'_, R, Links<A, P, S>, K>,
    command: ApiCommand,
) -> ApiReply
    requires seats { IsSeatsOf desk.old.node.now desk.old.seats }
    requires record_ { IsRecord command }
    ensures node { desk.new.node.now ≡ desk.old.node.now }
    ensures seats { IsSeatsOf desk.old.node.now desk.new.seats }
    ensures served { (ns : List NodeEntry) × (xs : List Exchange) × Acts ns desk.old.seats desk.new.seats
        × Dialling xs (S.dialled desk.old.links.store) (S.dialled desk.new.links.store) (S.dial_faults desk.old.links.store) (S.dial_faults desk.new.links.store)
        × IsRecordServed desk.old.node.now desk.old.links.store_at desk.new.seats command (K.shown desk.old.clock) (K.shown desk.new.clock) ns xs result }
    ensures places { (desk.new.links.app_at ≡ desk.old.links.app_at) × (desk.new.links.store_at ≡ desk.old.links.store_at) }
    ensures others { (desk.new.links.app ≡ desk.old.links.app) × (desk.new.links.peers ≡ desk.old.links.peers) }
{
    match command {
        ApiCommand::Transact { actor, ops } => {
            serve_state(desk, actor, StoreAsk::Transact { ops })
        }
        ApiCommand::GetState { actor, key } => {
            serve_state(desk, actor, StoreAsk::GetState { key })
        }
        ApiCommand::PutReminder {
            actor,
            name,
            reminder,
        } => serve_write(desk, actor, StoreAsk::PutReminder { name, reminder }),
        ApiCommand::GetReminder { actor, name } => {
            let ask = StoreAsk::GetReminder { name };
            let at = desk.links.store_at;
            let store = &mut desk.links.store;
            serve_asked(desk.alloc, desk.node, store, &at, actor, ask, 0)
        }
        ApiCommand::DeleteReminder { actor, name } => {
            serve_write(desk, actor, StoreAsk::DeleteReminder { name })
        }
        ApiCommand::SetTimer { actor, name, timer } => set_timer(desk, actor, name, timer),
        ApiCommand::DeleteTimer { actor, name } => delete_timer(desk, actor, name),
        ApiCommand::Invoke { .. } => unreachable!(),
    }
}
