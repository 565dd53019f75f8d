// The turn of a timer.
ghost use Rattle.std.specs.Prelude.{◌≡◌, ◌<◌, ◌≤◌, List, length};
ghost use Rattle.std.specs.Option.{option_copied};
ghost use Rattle.exchanges.specs.Exchanges.{Exchange, Dialling};
ghost use Rattle.sidecar_node.specs.Nodes.{part_gates, part_at, IsSeatsOf, Acts};
ghost use Rattle.clock_turns.specs.Timers.{Calls, called_asked, Turn, IsTurn, turn_entries, started_event};
ghost use Rattle.clock_turns.specs.Ends.{called_begun, called_fault, turn_end};

use crate::callback::call_timer;
use crate::ends::TickEnd;
use crate::outcome::{Outcome, got_fault, is_there, over_end, refused_end, spent_or};
use actor_names::{Address, ChainId};
use actor_ports::{Clock, Dial};
use exchanges::Links;
use http_edge::{EdgeError, HttpResponse};
use part_core::PartReply;
use sidecar_node::{Desk, begin_turn, end_turn};
use std::alloc::Global;
use std::sync::Wait;
use timer_book::{DueTimer, TimerEvent};

// Calls the timer back if its registration is there.
fn call_if<L: Dial>(
    alloc: Global,
    app: &mut L,
    at: &Address,
    due: &DueTimer,
    there: bool,
    chain: Option<&ChainId>,
) -> Option<Result<HttpResponse, EdgeError>>
    ensures { (xs : List Exchange) × Calls at.now due.now (option_copied chain.entry) there xs result
        × Dialling xs (L.dialled app.old) (L.dialled app.new) (L.dial_faults app.old) (L.dial_faults app.new) }
{
    if there {
        return Some(call_timer(alloc, app, at, due, chain));
    }
    None
}

/// Begins a turn of the timer's actor. A turn that begins has a second Started, one exchange with the application if that
/// found the registration, and its End, whatever came back.
pub(crate) fn take_turn<R: Wait, A: Dial, P: Dial, S: Dial, K: Clock>(
    desk: &mut Desk<'_, R, Links<A, P, S>, K>,
    book: usize,
    due: &DueTimer,
    again: TimerEvent,
) -> Outcome
    requires seats { IsSeatsOf desk.old.node.now desk.old.seats }
    requires inside { book < length (part_gates desk.old.node.now) }
    requires again { again ≡ started_event due.now }
    ensures node { desk.new.node.now ≡ desk.old.node.now }
    ensures seats { IsSeatsOf desk.old.node.now desk.new.seats }
    ensures turn { (t : Turn) × IsTurn desk.old.links.app_at book (part_at desk.old.node.now due.now.key) due.now t (K.shown desk.old.clock) (K.shown desk.new.clock) desk.new.seats
        × Acts (turn_entries book (part_at desk.old.node.now due.now.key) due.now t) desk.old.seats desk.new.seats
        × Dialling (called_asked t.called) (A.dialled desk.old.links.app) (A.dialled desk.new.links.app) (A.dial_faults desk.old.links.app) (A.dial_faults desk.new.links.app)
        × (result.begun ≡ called_begun t.called) × (result.faulted ≡ called_fault t.called) × (result.end ≡ turn_end t.said t.called) }
    ensures clock { K.shown desk.old.clock ≤ K.shown desk.new.clock }
    ensures places { (desk.new.links.app_at ≡ desk.old.links.app_at) × (desk.new.links.store_at ≡ desk.old.links.store_at) }
    ensures others { (desk.new.links.peers ≡ desk.old.links.peers) × (desk.new.links.store ≡ desk.old.links.store) }
{
    let node = desk.node;
    let said = begin_turn(
        desk.rt,
        desk.alloc,
        node,
        &mut desk.seats,
        &due.key,
        None,
        None,
        &mut desk.clock,
    );
    match said {
        Err(spent) => Outcome {
            begun: false,
            faulted: false,
            end: Some(TickEnd::Spent { count: spent.count }),
        },
        Ok(reply) => match reply {
            PartReply::Begun { call, chain } => {
                let said = node.step_book(desk.rt, &mut desk.seats, book, again);
                let there = is_there(&said);
                let at = desk.links.app_at;
                let app = &mut desk.links.app;
                let got = call_if(desk.alloc, app, &at, due, there, chain.as_ref());
                let seats = &mut desk.seats;
                let over = end_turn(desk.rt, node, seats, &due.key, call, &mut desk.clock);
                let end = over_end(&over, &got);
                Outcome {
                    begun: true,
                    faulted: got_fault(&got),
                    end: spent_or(&said, end),
                }
            }
            other => Outcome {
                begun: false,
                faulted: false,
                end: refused_end(&other),
            },
        },
    }
}
