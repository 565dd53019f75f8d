// One exchange with the store for an actor.
ghost use Rattle.std.specs.Prelude.{◌≡◌, List};
ghost use Rattle.exchanges.specs.Exchanges.{Exchange, Dialling};
ghost use Rattle.exchanges.specs.Replies.{place_at};
ghost use Rattle.exchanges.specs.Asked.{IsFrameAsked};
ghost use Rattle.sidecar_requests.specs.Asks.{store_frame};
ghost use Rattle.sidecar_requests.specs.Serving.{stamp_of, IsAsked};

use crate::ask::StoreAsk;
use crate::outcomes::store_answer;
use actor_names::{ActorKey, Address};
use actor_ports::Dial;
use actors_api::ApiReply;
use exchanges::{StoreEnd, ask_fenced, ask_store};
use frame_wire::{Stamp, StoreAnswer, StoreCommand};
use sidecar_node::SidecarNode;
use std::alloc::Global;

/// The stamp of a number that the actor's part drew.
pub(crate) fn stamp_of(node: &SidecarNode, actor: &ActorKey, n: u64) -> Stamp
    ensures { result ≡ stamp_of node.now actor.now n }
{
    let _parts = node.parts();
    let part = node.part_of(actor);
    Stamp {
        member: node.host().member,
        part: part as u8,
        number: n,
    }
}

/// Asks the store, with this stamp in a command that writes. One that writes state is of this epoch.
pub(crate) fn ask_with<L: Dial>(
    alloc: Global,
    store: &mut L,
    at: &Address,
    actor: ActorKey,
    ask: StoreAsk,
    stamp: Stamp,
    epoch: u64,
) -> Result<StoreAnswer, StoreEnd>
    ensures { (xs : List Exchange)
        × IsFrameAsked (store_frame actor stamp epoch ask) (place_at at.now) xs result
        × Dialling xs (L.dialled store.old) (L.dialled store.new) (L.dial_faults store.old) (L.dial_faults store.new) }
{
    match ask {
        StoreAsk::Transact { ops } => ask_fenced(alloc, store, at, epoch, stamp, actor, ops),
        StoreAsk::GetState { key } => {
            ask_store(alloc, store, at, StoreCommand::Get { actor, key })
        }
        StoreAsk::PutReminder { name, reminder } => {
            let command = StoreCommand::PutReminder {
                stamp,
                actor,
                name,
                reminder,
            };
            ask_store(alloc, store, at, command)
        }
        StoreAsk::GetReminder { name } => {
            ask_store(alloc, store, at, StoreCommand::GetReminder { actor, name })
        }
        StoreAsk::DeleteReminder { name } => {
            let command = StoreCommand::DeleteReminder { stamp, actor, name };
            ask_store(alloc, store, at, command)
        }
    }
}

/// Asks the store, with this number in the stamp of a command that writes, and says what the exchange comes to.
pub(crate) fn serve_asked<L: Dial>(
    alloc: Global,
    node: &SidecarNode,
    store: &mut L,
    at: &Address,
    actor: ActorKey,
    ask: StoreAsk,
    n: u64,
) -> ApiReply
    ensures { (xs : List Exchange) × IsAsked node.now at.now actor ask n xs result
        × Dialling xs (L.dialled store.old) (L.dialled store.new) (L.dial_faults store.old) (L.dial_faults store.new) }
{
    let wanted = ask.wanted();
    let stamp = stamp_of(node, &actor, n);
    let got = ask_with(alloc, store, at, actor, ask, stamp, 0);
    store_answer(wanted, got)
}
