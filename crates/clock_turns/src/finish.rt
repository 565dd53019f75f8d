// The Finished of a timer.
ghost use Rattle.std.specs.Prelude.{◌≡◌, ◌<◌, ◌≤◌, length};
ghost use Rattle.sidecar_node.specs.Entries.{one_entry};
ghost use Rattle.sidecar_node.specs.Nodes.{part_gates, IsSeatsOf, ActsAtBook, SpentAtBook};
ghost use Rattle.clock_turns.specs.Timers.{nanos_of, finished_event};

use actor_ports::Clock;
use schedule_text::Moment;
use sidecar_node::{Seats, SidecarNode};
use std::sync::Wait;
use step_gate::Spent;
use timer_book::{DueTimer, TimerEvent, TimerReply};

/// A moment in milliseconds since 1970, as books of timers count it.
pub(crate) fn moment_of(now: u64) -> Moment
    requires { now < 253370764800000 }
    ensures { result ≡ nanos_of now }
{
    Moment::from_nanos(now as u128 * 1_000_000).unwrap()
}

/// The Finished of this timer, at the moment that the clock shows.
pub(crate) fn finish_timer<R: Wait, K: Clock>(
    rt: &R,
    node: &SidecarNode,
    seats: &mut Seats,
    book: usize,
    due: DueTimer,
    clock: &mut K,
) -> Result<TimerReply, Spent>
    requires seats { IsSeatsOf node.now seats.old }
    requires inside { book < length (part_gates node.now) }
    ensures seats { IsSeatsOf node.now seats.new }
    ensures entry { ActsAtBook book (one_entry (finished_event due (K.shown clock.new)) result) seats.old seats.new }
    ensures spent { SpentAtBook book result seats.new }
    ensures clock { K.shown clock.old ≤ K.shown clock.new }
{
    let now = clock.now_ms();
    let ended = moment_of(now);
    let DueTimer {
        key,
        name,
        number,
        moment: _moment,
        timer: _timer,
    } = due;
    let event = TimerEvent::Finished {
        key,
        name,
        number,
        ended,
    };
    node.step_book(rt, seats, book, event)
}
