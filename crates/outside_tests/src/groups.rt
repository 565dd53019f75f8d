// Threads at a gate where callers share steps: the sum at the end, what each thread was answered, and places.
ghost use Rattle.group_gate.specs.Gates.{IsSeatOf};

use adder::Adder;
use group_gate::*;
use std::sync::Wait;
use std::test::Fail;
use std::thread::{Threads, join};

mod adder;

/// How often each thread asks.
const ASKS: u64 = 300;

/// Asks `ASKS` times with the number. False says that there was no place, or that an answer wasn't above the one before.
fn ask_often<M: Grouped<Ask = u64, Answer = u64>, R: Wait>(
    rt: &R,
    gate: &GroupGate<M>,
    seat: GroupSeat<M>,
    number: u64,
) -> bool
    requires seat { IsSeatOf M.moves gate.now seat }
    requires number { M.takes number }
{
    let mut seat = seat;
    let Some(place) = gate.sit(&mut seat) else {
        return false;
    };
    let mut last = 0;
    for _ in 0..ASKS {
        match gate.call_in(rt, &mut seat, &place, number) {
            Ok(answer) if answer > last => last = answer,
            _ => return false,
        }
    }
    true
}

/// Asks so in two threads.
fn ask_in_two<R: Threads + Wait + Sync>(
    rt: &R,
    gate: &GroupGate<Adder>,
    one: GroupSeat<Adder>,
    two: GroupSeat<Adder>,
    number: u64,
) -> (bool, bool)
    requires one { IsSeatOf (λ _ _ _ _. Unit {0}) gate.now one }
    requires two { IsSeatOf (λ _ _ _ _. Unit {0}) gate.now two }
{
    join(
        rt,
        || ask_often(rt, gate, one, number),
        || ask_often(rt, gate, two, number),
    )
}

#[test]
fn four_threads_share_steps(rt: HostRuntime) -> Result<(), Fail> {
    let (gate, seat) = GroupGate::new(rt.alloc(), Adder { sum: 0 }, 4)?;
    let mut seat = seat;
    let one = gate.split_in(&mut seat);
    let two = gate.split_in(&mut seat);
    let three = gate.split_in(&mut seat);
    let four = gate.split_in(&mut seat);
    let shared = &gate;
    let rose = join(
        &rt,
        || ask_in_two(&rt, shared, one, two, 1),
        || ask_in_two(&rt, shared, three, four, 2),
    );
    assert_eq!(rt; rose, ((true, true), (true, true)));
    assert_eq!(rt; gate.close(&rt, seat).sum, 6 * ASKS);
    Ok(())
}

#[test]
fn place_is_found_after_it_was_given_back(rt: HostRuntime) -> Result<(), Fail> {
    let (gate, seat) = GroupGate::new(rt.alloc(), Adder { sum: 0 }, 2)?;
    let mut one = seat;
    let mut two = gate.split_in(&mut one);
    let mut three = gate.split_in(&mut one);
    let first = gate.sit(&mut one).ok_or("no first place")?;
    let second = gate.sit(&mut two).ok_or("no second place")?;
    assert!(rt; gate.sit(&mut three).is_none());
    gate.rise(&mut one, first);
    let third = gate.sit(&mut three).ok_or("no place again")?;
    assert!(rt; gate.call_in(&rt, &mut two, &second, 5) == Ok(5));
    assert!(rt; gate.call_in(&rt, &mut three, &third, 6) == Ok(11));
    assert_eq!(rt; gate.close(&rt, one).sum, 11);
    Ok(())
}

/// Closing consumes the gate, so no call can run at that time or follow, though a seat still has its place.
#[test]
fn group_gate_closes_while_other_seat_has_place(rt: HostRuntime) -> Result<(), Fail> {
    let (gate, seat) = GroupGate::new(rt.alloc(), Adder { sum: 7 }, 1)?;
    let mut seat = seat;
    let mut left = gate.split_in(&mut seat);
    let place = gate.sit(&mut left).ok_or("no place")?;
    assert_eq!(rt; gate.close(&rt, seat).sum, 7);
    drop(place);
    drop(left);
    Ok(())
}
