// Two threads at a gate of a part, and a book of timers at a gate.
ghost use Rattle.std.specs.Prelude.{IfOk};
ghost use Rattle.part_model.specs.Machine.{PartAllows};
ghost use Rattle.part_model.specs.Rooms.{IsInRange};
ghost use Rattle.step_gate.specs.Gates.{IsSeatOf};

use crate::members::host;
use actor_names::{default_space, read_key, read_member, read_record_name};
use part_core::{Part, PartReply};
use part_model::{PartEvent, PartSettings, TypeList};
use place_table::build_table;
use schedule_text::{Moment, read_schedule};
use std::alloc::{AllocError, Global};
use std::sync::Wait;
use std::test::Fail;
use std::thread;
use std::thread::join;
use std::time::{Clock, Duration};
use step_gate::{Gate, Seat, Spent};
use timer_book::{Timer, TimerBook, TimerEvent, TimerReply, TimerText};

/// How many numbers each thread draws.
const DRAWS: usize = 1000;

/// Part 3 of `a/1` after the round of a table of version 1 whose only host is `a/1`.
fn open_part(alloc: Global) -> Result<Part, Fail> {
    let settings = PartSettings {
        member: read_member(b"a/1")?,
        part: 3,
        kinds: TypeList::from_vec(Vec::new(alloc)),
    };
    let mut part = Part::new(alloc, settings)?;
    let table = build_table(alloc, &default_space(), 1, &[host(alloc)?])?;
    let _locked = part.step(PartEvent::Lock { version: 1 });
    let _updated = part.step(PartEvent::Update { table, now: 10 });
    let _opened = part.step(PartEvent::Unlock { version: 1 });
    Ok(part)
}

/// The numbers that one thread draws.
fn draw_often<R: Wait>(
    rt: &R,
    alloc: Global,
    gate: &Gate<Part>,
    seat: Seat<Part>,
) -> Result<Vec<u64>, AllocError>
    requires { IsSeatOf PartAllows gate.now seat }
{
    let mut seat = seat;
    let mut numbers = Vec::new(alloc);
    for _ in 0..DRAWS {
        if let Ok(PartReply::Drawn { n }) = gate.call_in(rt, &mut seat, PartEvent::Draw) {
            numbers.push(n)?;
        }
    }
    Ok(numbers)
}

#[test]
fn two_threads_draw_each_number_once(rt: HostRuntime) -> Result<(), Fail> {
    let alloc = rt.alloc();
    let (gate, seat) = Gate::new(alloc, open_part(alloc)?)?;
    let (one, two) = gate.split(seat);
    let two = two?;
    let shared = &gate;
    let (one, two) = join(
        &rt,
        || draw_often(&rt, alloc, shared, one),
        || draw_often(&rt, alloc, shared, two),
    );
    let mut numbers = one?;
    for n in two? {
        numbers.push(n)?;
    }
    numbers.sort()?;
    assert_eq!(rt; numbers.len(), 2 * DRAWS);
    for (place, n) in numbers.iter().enumerate() {
        assert_eq!(rt; *n, place as u64 + 1);
    }
    Ok(())
}

/// Ends the first call's turn after a while.
fn end_late<R: Wait + Clock>(
    rt: &R,
    gate: &Gate<Part>,
    seat: Seat<Part>,
) -> Result<PartReply, Spent>
    requires { IsSeatOf PartAllows gate.now seat }
{
    thread::sleep(rt, Duration::from_millis(20));
    gate.call(rt, seat, PartEvent::End { call: 1, now: 30 }).1
}

/// Polls until the second call's turn begins.
fn poll_second<R: Wait>(rt: &R, gate: &Gate<Part>, seat: Seat<Part>) -> Result<PartReply, Spent>
    requires { IsSeatOf PartAllows gate.now seat }
{
    let (_seat, reply) = gate.wait_until(
        rt,
        seat,
        || -> PartEvent
            ensures { IsInRange result }
        { PartEvent::Poll { call: 2 } },
        |reply: &PartReply| matches!(reply, PartReply::Begun { .. }),
    );
    reply
}

/// An Ask of `counter/7`.
fn ask(alloc: Global) -> Result<PartEvent, Fail>
    ensures { IfOk result IsInRange }
{
    let key = read_key(alloc, b"counter/7")?;
    Ok(PartEvent::Ask {
        key,
        chain: None,
        now: 20,
    })
}

#[test]
fn two_seats_hand_over_turn(rt: HostRuntime) -> Result<(), Fail> {
    let alloc = rt.alloc();
    let (gate, seat) = Gate::new(alloc, open_part(alloc)?)?;
    let (one, two) = gate.split(seat);
    let (one, first) = gate.call(&rt, one, ask(alloc)?);
    assert!(rt; matches!(first, Ok(PartReply::Begun { call: 1, .. })));
    let (two, second) = gate.call(&rt, two?, ask(alloc)?);
    assert!(rt; matches!(second, Ok(PartReply::Waits { call: 2, place: 1 })));
    let shared = &gate;
    let (ended, polled) = join(
        &rt,
        || end_late(&rt, shared, one),
        || poll_second(&rt, shared, two),
    );
    assert!(rt; matches!(ended, Ok(PartReply::Ended { next: Some(2) })));
    assert!(rt; matches!(polled, Ok(PartReply::Begun { call: 2, .. })));
    Ok(())
}

/// The moment at this many nanoseconds.
fn at(nanos: u128) -> Result<Moment, Fail> {
    Ok(Moment::from_nanos(nanos).ok_or("no moment")?)
}

fn text(alloc: Global, text: &str) -> Result<TimerText, Fail> {
    Ok(TimerText::from_string(String::from_str(alloc, text)?))
}

/// The event that registers a timer that is due after a second.
fn set_timer(alloc: Global) -> Result<TimerEvent, Fail> {
    let timer = Timer {
        schedule: read_schedule("1s", "", "", at(0)?)?,
        callback: text(alloc, "ring")?,
        payload: None,
        due: text(alloc, "1s")?,
        period: text(alloc, "")?,
    };
    Ok(TimerEvent::Set {
        key: read_key(alloc, b"bell/1")?,
        name: read_record_name(alloc, b"a")?,
        timer,
    })
}

#[test]
fn timer_of_book_at_gate_is_due(rt: HostRuntime) -> Result<(), Fail> {
    let alloc = rt.alloc();
    let (gate, seat) = Gate::new(alloc, TimerBook::new(alloc))?;
    let (seat, set) = gate.call(&rt, seat, set_timer(alloc)?);
    assert!(rt; matches!(set, Ok(TimerReply::WasSet { number: 1 })));
    let due = TimerEvent::Due {
        now: at(2_000_000_000)?,
    };
    let (_seat, due) = gate.call(&rt, seat, due);
    assert!(rt; matches!(due, Ok(TimerReply::DueIs { timer: Some(_) })));
    Ok(())
}
