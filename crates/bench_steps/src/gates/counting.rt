// Threads that count, at a gate and under a mutex.
ghost use Rattle.step_gate.specs.Gates.{IsSeatOf};
ghost use Rattle.bench_steps.specs.Counting.{CounterMoves};

use crate::gates::counter::{Counter, Up};
use std::alloc::Global;
use std::sync::{Mutex, Wait};
use std::thread;
use std::thread::Threads;
use step_gate::{Gate, Machine, Seat};

/// Makes `steps` steps in one thread.
fn count_steps<R: Wait>(rt: &R, gate: &Gate<Counter>, seat: Seat<Counter>, steps: u32)
    requires { IsSeatOf CounterMoves gate.now seat }
{
    let mut seat = seat;
    for _ in 0..steps {
        let _count = gate.call_in(rt, &mut seat, Up);
    }
}

/// Starts the threads and waits for them.
fn count_in<R: Threads + Wait + Sync>(
    rt: &R,
    gate: &Gate<Counter>,
    seat: Seat<Counter>,
    threads: u32,
    steps: u32,
) -> Seat<Counter>
    requires { IsSeatOf CounterMoves gate.now seat }
    ensures { IsSeatOf CounterMoves gate.now result }
{
    thread::scope(
        thread::scope_env(),
        rt,
        |scope| -> Seat<Counter>
            requires { IsSeatOf CounterMoves gate.now seat }
            ensures { IsSeatOf CounterMoves gate.entry.now result }
        {
            let mut seat = seat;
            for _ in 0..threads {
                let own = gate.split_in(&mut seat);
                let _ = scope.spawn(
                    move ||
                        requires { IsSeatOf CounterMoves gate.now own }
                    { count_steps(rt, gate, own, steps) },
                );
            }
            seat
        },
    )
}

/// Returns how many steps there were in the end; `None` if memory runs out.
pub fn count_at_gate<R: Threads + Wait + Sync>(
    rt: &R,
    alloc: Global,
    threads: u32,
    steps: u32,
) -> Option<u64> {
    let (gate, seat) = Gate::new(alloc, Counter { count: 0 }).ok()?;
    let seat = count_in(rt, &gate, seat, threads, steps);
    Some(gate.close(rt, seat).count)
}

/// Makes `steps` steps in one thread.
fn count_locked<R: Wait>(rt: &R, counter: &Mutex<Counter>, steps: u32) {
    for _ in 0..steps {
        let mut counter = counter.lock(rt);
        let _count = counter.step(Up);
    }
}

/// The same steps under a plain mutex.
pub fn count_under_mutex<R: Threads + Wait + Sync>(rt: &R, threads: u32, steps: u32) -> u64 {
    let counter = Mutex::new(Counter { count: 0 });
    count_locked_in(rt, &counter, threads, steps);
    counter.into_inner().count
}

fn count_locked_in<R: Threads + Wait + Sync>(
    rt: &R,
    counter: &Mutex<Counter>,
    threads: u32,
    steps: u32,
) {
    thread::scope(thread::scope_env(), rt, |scope| {
        for _ in 0..threads {
            let _ = scope.spawn(move || count_locked(rt, counter, steps));
        }
    })
}
