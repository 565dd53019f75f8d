// A turn's beginning and its end.
ghost use Rattle.std.specs.Prelude.{◌≡◌, ◌≤◌, ◌^◌, ◌↔◌, List, true, false, length, IsTrue, IfErr, IfOk};
ghost use Rattle.std.specs.Option.{option_copied};
ghost use Rattle.step_gate.specs.Gates.{IsSeatOf, seen_of};
ghost use Rattle.part_model.specs.Machine.{PartAllows};
ghost use Rattle.part_model.specs.Rooms.{IsInRange};
ghost use Rattle.sidecar_node.specs.Entries.{PartEntry, Makes};
ghost use Rattle.sidecar_node.specs.Turns.{Begins, AfterFirst, Polls, Ends, ask_of, asks_again};
ghost use Rattle.sidecar_node.specs.Nodes.{part_at, IsSeatsOf, ActsAt, SpentAt};

use crate::node::{Seats, SidecarNode};
use crate::rows::put_at;
use actor_names::{ActorKey, ChainId, OutOfMemory};
use actor_ports::Clock;
use part_core::{Part, PartReply};
use part_model::PartEvent;
use std::alloc::Global;
use std::sync::Wait;
use step_gate::{Gate, Seat, Spent};

// A copy of the chain, if there is one.
fn copy_chain(alloc: Global, chain: Option<&ChainId>) -> Result<Option<ChainId>, OutOfMemory>
    ensures { IfOk result (λ copy. copy ≡ option_copied chain.entry) }
{
    match chain {
        None => Ok(None),
        Some(chain) => Ok(Some(chain.copy(alloc)?)),
    }
}

// The Ask of this call, or its AskAt if a least version is given.
fn ask_event(
    alloc: Global,
    key: &ActorKey,
    chain: Option<&ChainId>,
    least: Option<u64>,
    now: u64,
) -> Result<PartEvent, OutOfMemory>
    ensures ask { IfOk result (λ event. event ≡ ask_of key.now (option_copied chain.entry) least now) }
    ensures range { IfOk result IsInRange }
{
    let key = key.copy(alloc)?;
    let chain = copy_chain(alloc, chain)?;
    match least {
        None => Ok(PartEvent::Ask { key, chain, now }),
        Some(least) => Ok(PartEvent::AskAt {
            key,
            chain,
            least,
            now,
        }),
    }
}

// Polls the call until it isn't told to ask again.
fn poll_turn<R: Wait>(
    rt: &R,
    gate: &Gate<Part>,
    seat: Seat<Part>,
    call: u64,
) -> (Seat<Part>, Result<PartReply, Spent>)
    requires { IsSeatOf PartAllows gate.now seat }
    ensures seat { IsSeatOf PartAllows gate.now result.0 }
    ensures polls { (es : List PartEntry) × Makes es seat result.0 × Polls call es result.1 }
    ensures full { IfErr result.1 (λ e. (e.count ≡ 2 ^ 62) × (length (seen_of result.0) ≡ 2 ^ 62)) }
{
    gate.wait_until(
        rt,
        seat,
        move || -> PartEvent
            ensures { result ≡ PartEvent.Poll call }
        { PartEvent::Poll { call } },
        |reply: &PartReply| -> bool
            ensures done { IsTrue result → asks_again reply.now ≡ false }
            ensures again { result ≡ false → asks_again reply.now ≡ true }
        { !matches!(reply, PartReply::Waits { .. } | PartReply::OutOfMemory) },
    )
}

// What follows what came of an Ask.
fn wait_turn<R: Wait>(
    rt: &R,
    gate: &Gate<Part>,
    seat: Seat<Part>,
    first: Result<PartReply, Spent>,
) -> (Seat<Part>, Result<PartReply, Spent>)
    requires seat { IsSeatOf PartAllows gate.now seat }
    requires full { IfErr first (λ e. (e.count ≡ 2 ^ 62) × (length (seen_of seat) ≡ 2 ^ 62)) }
    ensures seat { IsSeatOf PartAllows gate.now result.0 }
    ensures follows { (es : List PartEntry) × Makes es seat result.0 × AfterFirst first es result.1 }
    ensures full { IfErr result.1 (λ e. (e.count ≡ 2 ^ 62) × (length (seen_of result.0) ≡ 2 ^ 62)) }
{
    match first {
        Err(spent) => (seat, Err(spent)),
        Ok(reply) => match reply {
            PartReply::Waits { call, place: _ } => poll_turn(rt, gate, seat, call),
            last => (seat, Ok(last)),
        },
    }
}

/// Begins a turn of the actor: one Ask on its part, or one AskAt if a least version is given, and then Polls of the
/// call while it waits or a Poll runs out of memory. The answer is the last reply. `OutOfMemory` also comes before the
/// Ask. `Spent` comes exactly if the part's gate took no further entry; the seat has then seen 2^62 of them.
pub fn begin_turn<R: Wait, K: Clock>(
    rt: &R,
    alloc: Global,
    node: &SidecarNode,
    seats: &mut Seats,
    key: &ActorKey,
    chain: Option<&ChainId>,
    least: Option<u64>,
    clock: &mut K,
) -> Result<PartReply, Spent>
    requires { IsSeatsOf node.now seats.old }
    ensures seats { IsSeatsOf node.now seats.new }
    ensures begins { (es : List PartEntry) × ActsAt (part_at node.now key.now) es seats.old seats.new × Begins key.now (option_copied chain.entry) least (K.shown clock.new) es result }
    ensures spent { SpentAt (part_at node.now key.now) result seats.new }
    ensures clock { K.shown clock.old ≤ K.shown clock.new }
{
    let now = clock.now_ms();
    let part = node.part_of(key);
    match ask_event(alloc, key, chain, least, now) {
        Err(_) => Ok(PartReply::OutOfMemory),
        Ok(ask) => {
            let gate = &node.parts[part];
            let mut seat = seats.parts.remove(part);
            let first = gate.call_in(rt, &mut seat, ask);
            let (seat, said) = wait_turn(rt, gate, seat, first);
            put_at(&mut seats.parts, part, seat);
            said
        }
    }
}

/// Ends the turn of the call: one End on the actor's part, whose reply is the answer. Takes no memory.
pub fn end_turn<R: Wait, K: Clock>(
    rt: &R,
    node: &SidecarNode,
    seats: &mut Seats,
    key: &ActorKey,
    call: u64,
    clock: &mut K,
) -> Result<PartReply, Spent>
    requires { IsSeatsOf node.now seats.old }
    ensures seats { IsSeatsOf node.now seats.new }
    ensures ends { (es : List PartEntry) × ActsAt (part_at node.now key.now) es seats.old seats.new × Ends call (K.shown clock.new) es result }
    ensures spent { SpentAt (part_at node.now key.now) result seats.new }
    ensures clock { K.shown clock.old ≤ K.shown clock.new }
{
    let now = clock.now_ms();
    let part = node.part_of(key);
    node.call_part(rt, seats, part, PartEvent::End { call, now })
}
