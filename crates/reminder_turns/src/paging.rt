// One page of due reminders.
ghost use Rattle.std.specs.Prelude.{◌≡◌};
ghost use Rattle.sidecar_node.specs.Nodes.{IsSeatsOf};
ghost use Rattle.reminder_turns.specs.Pages.{TakesPage};

use crate::listing::{last_key, page_of};
use crate::running::{Ran, run_page};
use crate::standing::{Stand, stand_after};
use actor_ports::{Clock, Dial};
use exchanges::{Links, ask_store};
use frame_wire::{MOST_DUE, StoreCommand};
use reminder_rows::DueKey;
use sidecar_node::Desk;
use std::sync::Wait;

/// What a page came to.
#[derive(Drop)]
pub(crate) struct Paged {
    /// How many calls were begun, at most 4,294,967,295.
    pub(crate) turns: u32,
    /// Whether the connection to the application failed at least once.
    pub(crate) faulted: bool,
    /// Where the call stands then.
    pub(crate) next: Stand,
}

/// Asks the store for the page behind this place, and runs its reminders.
pub(crate) fn take_page<R: Wait, A: Dial, P: Dial, S: Dial, K: Clock>(
    desk: &mut Desk<'_, R, Links<A, P, S>, K>,
    place: Option<DueKey>,
) -> Paged
    requires { IsSeatsOf desk.old.node.now desk.old.seats }
    ensures node { desk.new.node.now ≡ desk.old.node.now }
    ensures seats { IsSeatsOf desk.old.node.now desk.new.seats }
    ensures takes { TakesPage desk.old.node.now desk.old.links.app_at desk.old.links.store_at place (K.shown desk.old.clock) (K.shown desk.new.clock) desk.old.seats desk.new.seats
        (A.dialled desk.old.links.app) (A.dialled desk.new.links.app) (A.dial_faults desk.old.links.app) (A.dial_faults desk.new.links.app)
        (S.dialled desk.old.links.store) (S.dialled desk.new.links.store) (S.dial_faults desk.old.links.store) (S.dial_faults desk.new.links.store)
        result.turns result.faulted result.next }
    ensures places { (desk.new.links.app_at ≡ desk.old.links.app_at) × (desk.new.links.store_at ≡ desk.old.links.store_at) }
    ensures peers { desk.new.links.peers ≡ desk.old.links.peers }
{
    let asked = StoreCommand::Due {
        after: place,
        limit: MOST_DUE,
    };
    let at = desk.links.store_at;
    let got = ask_store(desk.alloc, &mut desk.links.store, &at, asked);
    match page_of(got) {
        Err(end) => Paged {
            turns: 0,
            faulted: false,
            next: Stand::Over { end },
        },
        Ok(entries) => {
            let ran = run_page(desk, entries.as_slice());
            let Ran {
                turns,
                faulted,
                end,
            } = ran;
            let next = stand_after(last_key(entries), end);
            Paged {
                turns,
                faulted,
                next,
            }
        }
    }
}
