// Threads at a gate: the value at the end, and that a waiting call is woken.
ghost use Rattle.step_gate.specs.Gates.{IsSeatOf};

use counter::{Count, Counter};
use std::sync::Wait;
use std::test::Fail;
use std::thread::join;
use step_gate::*;

mod counter;

/// How many steps each thread makes.
const STEPS: u32 = 1000;

/// Makes `STEPS` steps with events from `make`.
fn step_often<M: Machine, R: Wait, E: Fn() -> M::Event>(
    rt: &R,
    gate: &Gate<M>,
    seat: Seat<M>,
    make: E,
) -> Seat<M>
    requires seat { IsSeatOf M.moves gate.now seat }
    requires calls { E.IsAlwaysCallable make }
    requires events { (e : M.Event) → E.post make e → M.takes e }
    ensures { IsSeatOf M.moves gate.now result }
{
    let mut seat = seat;
    for _ in 0..STEPS {
        let _reply = gate.call_in(rt, &mut seat, make());
    }
    seat
}

#[test]
fn two_threads_count_every_step(rt: HostRuntime) -> Result<(), Fail> {
    let (gate, seat) = Gate::new(rt.alloc(), Counter { count: 0 })?;
    let (one, two) = gate.split(seat);
    let two = two?;
    let shared = &gate;
    let (one, two) = join(
        &rt,
        || step_often(&rt, shared, one, || Count::Up),
        || step_often(&rt, shared, two, || Count::Up),
    );
    let seat = gate.join(one, two);
    let (seat, last) = gate.call(&rt, seat, Count::Look);
    assert!(rt; last == Ok(2000));
    assert_eq!(rt; gate.close(&rt, seat).count, 2000);
    Ok(())
}

#[test]
fn wait_ends_at_first_reply_that_is_done(rt: HostRuntime) -> Result<(), Fail> {
    let (gate, seat) = Gate::new(rt.alloc(), Counter { count: 0 })?;
    let (seat, last) = gate.wait_until(&rt, seat, || Count::Up, |count: &u64| *count >= 5);
    assert!(rt; last == Ok(5));
    assert_eq!(rt; gate.close(&rt, seat).count, 5);
    Ok(())
}

#[test]
fn one_thread_waits_for_steps_of_other(rt: HostRuntime) -> Result<(), Fail> {
    let (gate, seat) = Gate::new(rt.alloc(), Counter { count: 0 })?;
    let (one, two) = gate.split(seat);
    let two = two?;
    let shared = &gate;
    let (waited, counted) = join(
        &rt,
        || shared.wait_until(&rt, one, || Count::Look, |count: &u64| *count >= 1000),
        || step_often(&rt, shared, two, || Count::Up),
    );
    assert!(rt; waited.1 == Ok(1000));
    assert_eq!(rt; gate.close(&rt, counted).count, 1000);
    Ok(())
}

/// Closing consumes the gate, so no call can run at that time or follow. A seat that is left over is a token without
/// bytes, which can't be used any more.
#[test]
fn gate_closes_while_other_seat_is_left(rt: HostRuntime) -> Result<(), Fail> {
    let (gate, seat) = Gate::new(rt.alloc(), Counter { count: 7 })?;
    let (seat, left) = gate.split(seat);
    let left = left?;
    assert_eq!(rt; gate.close(&rt, seat).count, 7);
    drop(left);
    Ok(())
}
