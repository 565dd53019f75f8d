// One Due on a book, and the timer that it gave.
ghost use Rattle.std.specs.Prelude.{◌≡◌, ◌<◌, ◌≤◌, false, Option, Some, Ok, length};
ghost use Rattle.timer_book.specs.declared.event.TimerReply.TheVariants.{DueIs};
ghost use Rattle.exchanges.specs.Exchanges.{Dialling};
ghost use Rattle.sidecar_node.specs.Nodes.{part_gates, IsSeatsOf, Acts};
ghost use Rattle.clock_turns.specs.Closings.{BookSaid};
ghost use Rattle.clock_turns.specs.Timers.{Fired};
ghost use Rattle.clock_turns.specs.Ticks.{IsFiring, fired_entries, due_entries, fired_asked, fired_begun, fired_fault, due_stand, stand};

use crate::ends::TickEnd;
use crate::finish::moment_of;
use crate::fire::fire_timer;
use crate::marks::two_marks;
use crate::outcome::Outcome;
use crate::tick_stand::{Stand, after_timer};
use actor_ports::{Clock, Dial};
use exchanges::Links;
use sidecar_node::Desk;
use std::sync::Wait;
use timer_book::{DueTimer, TimerEvent, TimerReply};

/// What a Due came to, with what followed it.
#[derive(Drop)]
pub(crate) struct Firing {
    pub(crate) begun: bool,
    pub(crate) faulted: bool,
    pub(crate) stand: Stand,
}

// Nothing followed.
fn idle(place: Stand) -> Firing
    ensures begun { result.begun ≡ false }
    ensures faulted { result.faulted ≡ false }
    ensures place { result.stand ≡ place }
{
    Firing {
        begun: false,
        faulted: false,
        stand: place,
    }
}

// The timer that a Due gave.
fn fire_due<R: Wait, A: Dial, P: Dial, S: Dial, K: Clock>(
    desk: &mut Desk<'_, R, Links<A, P, S>, K>,
    book: usize,
    due: DueTimer,
) -> Firing
    requires seats { IsSeatsOf desk.old.node.now desk.old.seats }
    requires inside { book < length (part_gates desk.old.node.now) }
    ensures node { desk.new.node.now ≡ desk.old.node.now }
    ensures seats { IsSeatsOf desk.old.node.now desk.new.seats }
    ensures due { (fired : Option Fired) × IsFiring desk.old.node.now desk.old.links.app_at book (Ok (DueIs (Some due))) fired (K.shown desk.old.clock) (K.shown desk.new.clock) desk.new.seats
        × Acts (fired_entries desk.old.node.now book (K.shown desk.new.clock) fired) desk.old.seats desk.new.seats
        × Dialling (fired_asked fired) (A.dialled desk.old.links.app) (A.dialled desk.new.links.app) (A.dial_faults desk.old.links.app) (A.dial_faults desk.new.links.app)
        × (result.begun ≡ fired_begun fired) × (result.faulted ≡ fired_fault fired) × (result.stand ≡ due_stand book fired) }
    ensures clock { K.shown desk.old.clock ≤ K.shown desk.new.clock }
    ensures places { (desk.new.links.app_at ≡ desk.old.links.app_at) × (desk.new.links.store_at ≡ desk.old.links.store_at) }
    ensures others { (desk.new.links.peers ≡ desk.old.links.peers) × (desk.new.links.store ≡ desk.old.links.store) }
{
    match two_marks(desk.alloc, &due) {
        Err(_) => idle(Stand::Over {
            end: TickEnd::OutOfMemory,
        }),
        Ok(marks) => {
            let fired = fire_timer(desk, book, due, marks);
            let Outcome {
                begun,
                faulted,
                end,
            } = fired;
            Firing {
                begun,
                faulted,
                stand: after_timer(book, end),
            }
        }
    }
}

/// One Due on this book at this moment, and the timer that it gave. The moment is in milliseconds since 1970.
pub(crate) fn take_due<R: Wait, A: Dial, P: Dial, S: Dial, K: Clock>(
    desk: &mut Desk<'_, R, Links<A, P, S>, K>,
    book: usize,
    now: u64,
) -> Firing
    requires seats { IsSeatsOf desk.old.node.now desk.old.seats }
    requires inside { book < length (part_gates desk.old.node.now) }
    requires now { now < 253370764800000 }
    ensures node { desk.new.node.now ≡ desk.old.node.now }
    ensures seats { IsSeatsOf desk.old.node.now desk.new.seats }
    ensures due { (said : BookSaid) × (fired : Option Fired) × IsFiring desk.old.node.now desk.old.links.app_at book said fired (K.shown desk.old.clock) (K.shown desk.new.clock) desk.new.seats
        × Acts (due_entries desk.old.node.now now book said fired (K.shown desk.new.clock)) desk.old.seats desk.new.seats
        × Dialling (fired_asked fired) (A.dialled desk.old.links.app) (A.dialled desk.new.links.app) (A.dial_faults desk.old.links.app) (A.dial_faults desk.new.links.app)
        × (result.begun ≡ fired_begun fired) × (result.faulted ≡ fired_fault fired) × (result.stand ≡ stand book said fired) }
    ensures clock { K.shown desk.old.clock ≤ K.shown desk.new.clock }
    ensures places { (desk.new.links.app_at ≡ desk.old.links.app_at) × (desk.new.links.store_at ≡ desk.old.links.store_at) }
    ensures others { (desk.new.links.peers ≡ desk.old.links.peers) × (desk.new.links.store ≡ desk.old.links.store) }
{
    let node = desk.node;
    let moment = moment_of(now);
    let said = node.step_book(
        desk.rt,
        &mut desk.seats,
        book,
        TimerEvent::Due { now: moment },
    );
    match said {
        Err(spent) => {
            let end = TickEnd::Spent { count: spent.count };
            idle(Stand::Over { end })
        }
        Ok(reply) => match reply {
            TimerReply::DueIs { timer } => match timer {
                None => {
                    let _books = node.parts();
                    idle(Stand::On { book: book + 1 })
                }
                Some(due) => fire_due(desk, book, due),
            },
            _ => idle(Stand::Over {
                end: TickEnd::OutOfMemory,
            }),
        },
    }
}
