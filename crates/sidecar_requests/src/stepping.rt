// Steps on an actor's part.
ghost use Rattle.std.specs.Prelude.{◌≡◌, ◌<◌, ◌≤◌, length, IfOk};
ghost use Rattle.part_model.specs.declared.event.PartEvent.TheVariants.{Hold, Release, Draw, Lock};
ghost use Rattle.sidecar_node.specs.Entries.{one_entry};
ghost use Rattle.sidecar_node.specs.Nodes.{part_gates, part_at, IsSeatsOf, ActsAt, SpentAt};

use actor_names::{ActorKey, OutOfMemory};
use actor_ports::Clock;
use part_core::PartReply;
use part_model::PartEvent;
use sidecar_node::{Seats, SidecarNode};
use std::alloc::Global;
use std::sync::Wait;
use step_gate::Spent;

/// The keys of a Hold and of its Release. Both are made before the Hold, so that the Release takes no memory.
#[derive(Drop)]
pub(crate) struct Keys {
    pub hold: ActorKey,
    pub release: ActorKey,
}

/// The keys of the actor.
pub(crate) fn two_keys(alloc: Global, actor: &ActorKey) -> Result<Keys, OutOfMemory>
    ensures hold { IfOk result (λ keys. keys.hold ≡ actor.now) }
    ensures release { IfOk result (λ keys. keys.release ≡ actor.now) }
{
    let hold = actor.copy(alloc)?;
    let release = actor.copy(alloc)?;
    Ok(Keys { hold, release })
}

/// One Hold of the actor on its part.
pub(crate) fn hold_step<R: Wait>(
    rt: &R,
    node: &SidecarNode,
    seats: &mut Seats,
    key: ActorKey,
) -> Result<PartReply, Spent>
    requires { IsSeatsOf node.now seats.old }
    ensures seats { IsSeatsOf node.now seats.new }
    ensures entry { ActsAt (part_at node.now key) (one_entry (Hold key) result) seats.old seats.new }
    ensures spent { SpentAt (part_at node.now key) result seats.new }
{
    let part = node.part_of(&key);
    node.step_part(rt, seats, part, PartEvent::Hold { key })
}

/// One Release of the actor on its part, at the moment that the clock shows.
pub(crate) fn release_step<R: Wait, K: Clock>(
    rt: &R,
    node: &SidecarNode,
    seats: &mut Seats,
    key: ActorKey,
    clock: &mut K,
) -> Result<PartReply, Spent>
    requires { IsSeatsOf node.now seats.old }
    ensures seats { IsSeatsOf node.now seats.new }
    ensures entry { ActsAt (part_at node.now key) (one_entry (Release key (K.shown clock.new)) result) seats.old seats.new }
    ensures spent { SpentAt (part_at node.now key) result seats.new }
    ensures clock { K.shown clock.old ≤ K.shown clock.new }
{
    let part = node.part_of(&key);
    let now = clock.now_ms();
    node.step_part(rt, seats, part, PartEvent::Release { key, now })
}

/// One Draw on the actor's part.
pub(crate) fn draw_step<R: Wait>(
    rt: &R,
    node: &SidecarNode,
    seats: &mut Seats,
    actor: &ActorKey,
) -> Result<PartReply, Spent>
    requires { IsSeatsOf node.now seats.old }
    ensures seats { IsSeatsOf node.now seats.new }
    ensures entry { ActsAt (part_at node.now actor.now) (one_entry Draw result) seats.old seats.new }
    ensures spent { SpentAt (part_at node.now actor.now) result seats.new }
{
    let part = node.part_of(actor);
    node.step_part(rt, seats, part, PartEvent::Draw)
}

/// One Lock of version 0 on the actor's part. No part has seen less than 0, so it changes nothing; the part tells its receipt.
pub(crate) fn fence_step<R: Wait>(
    rt: &R,
    node: &SidecarNode,
    seats: &mut Seats,
    actor: &ActorKey,
) -> Result<PartReply, Spent>
    requires { IsSeatsOf node.now seats.old }
    ensures seats { IsSeatsOf node.now seats.new }
    ensures entry { ActsAt (part_at node.now actor.now) (one_entry (Lock 0) result) seats.old seats.new }
    ensures spent { SpentAt (part_at node.now actor.now) result seats.new }
{
    let part = node.part_of(actor);
    node.step_part(rt, seats, part, PartEvent::Lock { version: 0 })
}
