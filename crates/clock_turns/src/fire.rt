// A timer that was due: its Started, its turn, its Finished.
ghost use Rattle.std.specs.Prelude.{◌≡◌, ◌<◌, ◌≤◌, length};
ghost use Rattle.exchanges.specs.Exchanges.{Dialling};
ghost use Rattle.sidecar_node.specs.Nodes.{part_gates, part_at, IsSeatsOf, Acts};
ghost use Rattle.clock_turns.specs.Timers.{run_asked, Fired, IsFired, timer_entries, started_event};
ghost use Rattle.clock_turns.specs.Ends.{run_begun, run_fault, timer_end};

use crate::finish::finish_timer;
use crate::marks::Marks;
use crate::outcome::{Outcome, is_there, spent_or};
use crate::timer_turn::take_turn;
use actor_ports::{Clock, Dial};
use exchanges::Links;
use sidecar_node::Desk;
use std::sync::Wait;
use timer_book::DueTimer;

/// A timer that was due: a first Started; if that found the registration, the turn, and the Finished at the moment after it.
pub(crate) fn fire_timer<R: Wait, A: Dial, P: Dial, S: Dial, K: Clock>(
    desk: &mut Desk<'_, R, Links<A, P, S>, K>,
    book: usize,
    due: DueTimer,
    marks: Marks,
) -> Outcome
    requires seats { IsSeatsOf desk.old.node.now desk.old.seats }
    requires inside { book < length (part_gates desk.old.node.now) }
    requires first { marks.first ≡ started_event due }
    requires again { marks.again ≡ started_event due }
    ensures node { desk.new.node.now ≡ desk.old.node.now }
    ensures seats { IsSeatsOf desk.old.node.now desk.new.seats }
    ensures fired { (f : Fired) × (f.timer ≡ due) × IsFired desk.old.links.app_at book (part_at desk.old.node.now due.key) f (K.shown desk.old.clock) (K.shown desk.new.clock) desk.new.seats
        × Acts (timer_entries book (part_at desk.old.node.now due.key) (K.shown desk.new.clock) f) desk.old.seats desk.new.seats
        × Dialling (run_asked f.run) (A.dialled desk.old.links.app) (A.dialled desk.new.links.app) (A.dial_faults desk.old.links.app) (A.dial_faults desk.new.links.app)
        × (result.begun ≡ run_begun f.run) × (result.faulted ≡ run_fault f.run) × (result.end ≡ timer_end f) }
    ensures clock { K.shown desk.old.clock ≤ K.shown desk.new.clock }
    ensures places { (desk.new.links.app_at ≡ desk.old.links.app_at) × (desk.new.links.store_at ≡ desk.old.links.store_at) }
    ensures others { (desk.new.links.peers ≡ desk.old.links.peers) × (desk.new.links.store ≡ desk.old.links.store) }
{
    let Marks { first, again } = marks;
    let node = desk.node;
    let said = node.step_book(desk.rt, &mut desk.seats, book, first);
    let there = is_there(&said);
    if there {
        let turned = take_turn(desk, book, &due, again);
        let done = finish_timer(desk.rt, node, &mut desk.seats, book, due, &mut desk.clock);
        let Outcome {
            begun,
            faulted,
            end,
        } = turned;
        let ended = spent_or(&done, end);
        let told = spent_or(&said, ended);
        return Outcome {
            begun,
            faulted,
            end: told,
        };
    }
    let gone = spent_or(&said, None);
    Outcome {
        begun: false,
        faulted: false,
        end: gone,
    }
}
