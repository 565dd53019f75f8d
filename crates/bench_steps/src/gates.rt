// What threads do at a gate.
//
//     gate THREADS STEPS     THREADS threads make STEPS steps each at one gate of a counter
//     mutex THREADS STEPS    the same under a plain mutex
//     queue CALLS MILLIS     CALLS calls of one actor, each from its own thread, with turns of MILLIS milliseconds
//
// The count is how many steps or turns there were.
mod counter;
mod counting;
mod queue;

use counting::{count_at_gate, count_under_mutex};
use queue::take_turns;
use std::alloc::Global;
use std::sync::Wait;
use std::thread::Threads;
use std::time::{Clock, Duration};

/// Does what `mode` says and answers the count; `None` if memory ran out, or if the words make no sense.
pub fn run<R: Threads + Wait + Clock + Sync>(
    rt: &R,
    alloc: Global,
    mode: &str,
    first: &str,
    second: &str,
) -> Option<u64> {
    let first = first.parse::<u32>().ok()?;
    let second = second.parse::<u32>().ok()?;
    match mode {
        "gate" => count_at_gate(rt, alloc, first, second),
        "mutex" => Some(count_under_mutex(rt, first, second)),
        "queue" => take_turns(rt, alloc, first, Duration::from_millis(second as u64)),
        _ => None,
    }
}
