// One event on each part in order.
ghost use Rattle.std.specs.Prelude.{◌≡◌, ◌≤◌, [], length, vec_capacity, IfOk, OnOk, OnErr};
ghost use Rattle.part_model.specs.Rooms.{IsInRange};
ghost use Rattle.sidecar_node.specs.Rounds.{part_event, MayWantMemory};
ghost use Rattle.sidecar_node.specs.Nodes.{part_gates, IsSeatsOf, GivesEach};

use crate::node::{Seats, SidecarNode};
use actor_names::OutOfMemory;
use part_core::PartReply;
use part_model::PartEvent;
use place_table::Table;
use std::sync::Wait;
use step_gate::Spent;

/// An event for each part of a node. A version is at most 2^62, a moment is in milliseconds since 1970.
#[derive(Drop)]
pub enum RoundEvent {
    /// Time has passed.
    Tick { now: u64 },
    /// No new chain may begin until the table of `version` is unlocked.
    Lock { version: u64 },
    /// The table of the round; each part gets a copy, which shares its hosts.
    Update { table: Table, now: u64 },
    /// Actors may begin by the table of `version`.
    Unlock { version: u64 },
    /// The parts are to stop for good.
    StopPart,
}

// The event of a part.
fn event_of(event: &RoundEvent) -> Result<PartEvent, OutOfMemory>
    ensures is { IfOk result (λ made. made ≡ part_event event.now) }
    ensures memory { OnErr result (MayWantMemory event.now) }
{
    match event {
        RoundEvent::Tick { now } => Ok(PartEvent::Tick { now: *now }),
        RoundEvent::Lock { version } => Ok(PartEvent::Lock { version: *version }),
        RoundEvent::Update { table, now } => {
            let table = table.copy()?;
            Ok(PartEvent::Update { table, now: *now })
        }
        RoundEvent::Unlock { version } => Ok(PartEvent::Unlock { version: *version }),
        RoundEvent::StopPart => Ok(PartEvent::StopPart),
    }
}

impl SidecarNode {
    /// Gives each part the event, in order, and appends the answers to `saids`, which must be empty and have room for
    /// as many as there are parts. A part whose gate takes no further entry is passed over. Only an Update may run out
    /// of memory; the first parts then have it, as many as there are answers.
    pub fn give_each<R: Wait>(
        &self,
        rt: &R,
        seats: &mut Seats,
        event: &RoundEvent,
        saids: &mut Vec<Result<PartReply, Spent>>,
    ) -> Result<(), OutOfMemory>
        requires seats { IsSeatsOf self.now seats.old }
        requires event { IsInRange (part_event event.now) }
        requires none { saids.old.items ≡ [] }
        requires room { length (part_gates self.now) ≤ vec_capacity saids.old }
        ensures seats { IsSeatsOf self.now seats.new }
        ensures gives { GivesEach (part_event event.now) saids.new.items seats.old seats.new }
        ensures each { OnOk result (length saids.new.items ≡ length (part_gates self.now)) }
        ensures first { length saids.new.items ≤ length (part_gates self.now) }
        ensures memory { OnErr result (MayWantMemory event.now) }
    {
        for part in 0..self.parts.len() {
            let given = event_of(event)?;
            let said = self.call_part(rt, seats, part, given);
            saids.push_reserved(said);
        }
        Ok(())
    }
}
