// One TakeClosing on a part, and what follows it.
ghost use Rattle.std.specs.Prelude.{◌≡◌, ◌<◌, Option, length};
ghost use Rattle.exchanges.specs.Exchanges.{Dialling};
ghost use Rattle.sidecar_node.specs.Turns.{Said};
ghost use Rattle.sidecar_node.specs.Nodes.{part_gates, IsSeatsOf, Acts};
ghost use Rattle.clock_turns.specs.Closings.{Closing, IsTaking, take_entries, asked_of, fault_in, stand};

use crate::cell::{Closed, close_cell};
use crate::closing_stand::{Stand, after_closing, taken_end};
use crate::ends::TickEnd;
use actor_ports::{Clock, Dial};
use exchanges::Links;
use part_core::PartReply;
use part_model::PartEvent;
use sidecar_node::Desk;
use std::sync::Wait;

/// What a TakeClosing came to, with what followed it.
#[derive(Drop)]
pub(crate) struct Taken {
    pub(crate) faulted: bool,
    pub(crate) stand: Stand,
}

/// One TakeClosing on this part, and what follows it.
pub(crate) fn take_one<R: Wait, A: Dial, P: Dial, S: Dial, K: Clock>(
    desk: &mut Desk<'_, R, Links<A, P, S>, K>,
    part: usize,
    now: u64,
) -> Taken
    requires seats { IsSeatsOf desk.old.node.now desk.old.seats }
    requires inside { part < length (part_gates desk.old.node.now) }
    ensures node { desk.new.node.now ≡ desk.old.node.now }
    ensures seats { IsSeatsOf desk.old.node.now desk.new.seats }
    ensures takes { (said : Said) × (closing : Option Closing) × IsTaking desk.old.links.app_at part said closing desk.new.seats × Acts (take_entries now part said closing) desk.old.seats desk.new.seats
        × Dialling (asked_of closing) (A.dialled desk.old.links.app) (A.dialled desk.new.links.app) (A.dial_faults desk.old.links.app) (A.dial_faults desk.new.links.app)
        × (result.faulted ≡ fault_in closing) × (result.stand ≡ stand part said closing) }
    ensures clock { desk.new.clock ≡ desk.old.clock }
    ensures places { (desk.new.links.app_at ≡ desk.old.links.app_at) × (desk.new.links.store_at ≡ desk.old.links.store_at) }
    ensures others { (desk.new.links.peers ≡ desk.old.links.peers) × (desk.new.links.store ≡ desk.old.links.store) }
{
    let node = desk.node;
    match node.step_part(
        desk.rt,
        &mut desk.seats,
        part,
        PartEvent::TakeClosing { now },
    ) {
        Err(spent) => Taken {
            faulted: false,
            stand: Stand::Over {
                end: TickEnd::Spent { count: spent.count },
            },
        },
        Ok(reply) => match reply {
            PartReply::Close { key } => {
                let closed = close_cell(desk, part, key);
                let Closed { faulted, end } = closed;
                Taken {
                    faulted,
                    stand: after_closing(part, end),
                }
            }
            PartReply::NoneClosing => {
                let _parts = node.parts();
                Taken {
                    faulted: false,
                    stand: Stand::On { part: part + 1 },
                }
            }
            other => Taken {
                faulted: false,
                stand: Stand::Over {
                    end: taken_end(&other),
                },
            },
        },
    }
}
