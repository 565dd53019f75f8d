// Calls of actors, their turns, and what ends them.
ghost use Rattle.std.specs.Prelude.{◌≡◌, ◌<◌, ◌≤◌, ◌+◌, ◌*◌, ◌^◌, true, false, length, IfSome, IfNone, IsOk};
ghost use Rattle.part_model.specs.Rooms.{IsInRange};
ghost use Rattle.cluster_model.specs.World.{ask_of, next_number, end_outcome, closed_outcome};
ghost use Rattle.cluster_parts.specs.Views.{MayWant, wants};
ghost use Rattle.world_events.specs.declared.event.WorldEvent.TheVariants as lines;
ghost use Rattle.world_run.specs.Worlds.{Happens, Ticks, AskedAt};

use crate::cluster::Cluster;
use actor_names::{ActorKey, ChainId, Member};
use cluster_parts::{
    CallAt, Calls, call_outcome, closing_outcome, ended_turns, hold_outcome, nothing, stop_outcome,
};
use part_core::PartReply;
use part_model::PartEvent;
use std::alloc::Global;
use world_events::{Outcome, TurnOutcome, WorldError};

/// The event of a call: `Ask` if the caller gives no version, which is 0.
fn ask_of(key: ActorKey, least: u64, chain: Option<ChainId>, now: u64) -> PartEvent
    ensures event { result ≡ ask_of key least chain now }
    ensures range { IsInRange result }
    ensures memory { MayWant result }
{
    if least == 0 {
        PartEvent::Ask { key, chain, now }
    } else {
        PartEvent::AskAt {
            key,
            chain,
            least,
            now,
        }
    }
}

/// Whether the part ran out of memory.
fn wants(reply: &PartReply) -> bool
    ensures { result ≡ wants reply.now }
{
    match reply {
        PartReply::OutOfMemory => true,
        _ => false,
    }
}

/// The reply, if the part had the memory for it.
fn in_memory(reply: PartReply) -> Option<PartReply>
    ensures reply { IfSome result (λ r. r ≡ reply) }
    ensures had { IfSome result (λ r. wants reply ≡ false) }
    ensures wanted { IfNone result (wants reply ≡ true) }
{
    if wants(&reply) { None } else { Some(reply) }
}

/// The script's number of the call that began at a place, if one did.
fn next_number(calls: &Calls, place: usize, next: Option<u64>) -> Option<u64>
    ensures { result ≡ next_number calls.now.calls place next }
{
    match next {
        None => None,
        Some(call) => Some(calls.number_of(place, call)),
    }
}

/// The outcome of an end, whose part is at this place.
fn end_outcome(calls: &Calls, call: u64, place: usize, reply: PartReply) -> Outcome
    ensures { result ≡ end_outcome calls.now.calls call place reply }
{
    match reply {
        PartReply::Ended { next } => Outcome::Turn {
            outcome: TurnOutcome::Ended {
                call,
                next: next_number(calls, place, next),
            },
        },
        PartReply::AlreadyEnded => Outcome::Turn {
            outcome: TurnOutcome::AlreadyEnded { call },
        },
        PartReply::StillWaiting => Outcome::Turn {
            outcome: TurnOutcome::StillWaiting { call },
        },
        PartReply::Stopped => Outcome::Stopped,
        _ => nothing(),
    }
}

/// The outcome of a deactivation that is over, for a part at this place.
fn closed_outcome(calls: &Calls, key: ActorKey, place: usize, reply: PartReply) -> Outcome
    ensures { result ≡ closed_outcome calls.now.calls key place reply }
{
    match reply {
        PartReply::ClosedDone { next } => Outcome::Closed {
            key,
            next: next_number(calls, place, next),
        },
        PartReply::NotClosing => Outcome::NotClosing,
        PartReply::Stopped => Outcome::Stopped,
        _ => nothing(),
    }
}

impl Cluster {
    /// An actor is called at a member; the call's number is one more than the calls so far.
    pub(crate) fn call(
        &mut self,
        call: u64,
        member: Member,
        key: ActorKey,
        least: u64,
        chain: Option<ChainId>,
    ) -> Result<Outcome, WorldError>
        ensures { Happens result self.old self.new (lines.Call call member key least chain) }
    {
        let next = self.calls.len() as u64 + 1;
        if call != next {
            return Err(WorldError::WrongNumber { next });
        }
        let Some(at) = self.parts.key_place_of(&mut self.ids, &member, &key) else {
            return Ok(nothing());
        };
        self.calls.reserve()?;
        let event = ask_of(key, least, chain, self.moment);
        let answer = self.parts.step_at(at, event);
        let Some(reply) = in_memory(answer) else {
            return Err(WorldError::OutOfMemory);
        };
        self.calls.add(at, &reply);
        Ok(call_outcome(call, reply))
    }

    /// Where a call was made, if its part is there.
    fn asked(&self, call: u64) -> Option<CallAt>
        ensures { AskedAt result self.now call }
    {
        match self.calls.at(call) {
            None => None,
            Some(asked) => {
                if asked.place < self.parts.len() {
                    Some(asked)
                } else {
                    None
                }
            }
        }
    }

    /// Somebody asks what state a call is in.
    pub(crate) fn poll(&mut self, call: u64) -> Result<Outcome, WorldError>
        ensures { Happens result self.old self.new (lines.Poll call) }
    {
        let Some(asked) = self.asked(call) else {
            return Ok(nothing());
        };
        let reply = self
            .parts
            .step_at(asked.place, PartEvent::Poll { call: asked.call });
        if wants(&reply) {
            return Err(WorldError::OutOfMemory);
        }
        Ok(call_outcome(call, reply))
    }

    /// A call's turn is over.
    pub(crate) fn end(&mut self, call: u64) -> Result<Outcome, WorldError>
        ensures { Happens result self.old self.new (lines.End call) }
    {
        let Some(asked) = self.asked(call) else {
            return Ok(nothing());
        };
        let reply = self.parts.step_at(
            asked.place,
            PartEvent::End {
                call: asked.call,
                now: self.moment,
            },
        );
        Ok(end_outcome(&self.calls, call, asked.place, reply))
    }

    /// An actor is held.
    pub(crate) fn hold(&mut self, member: Member, key: ActorKey) -> Result<Outcome, WorldError>
        ensures { Happens result self.old self.new (lines.Hold member key) }
    {
        let Some(at) = self.parts.key_place_of(&mut self.ids, &member, &key) else {
            return Ok(nothing());
        };
        Ok(hold_outcome(self.parts.step_at(at, PartEvent::Hold { key })))
    }

    /// One hold of an actor is over.
    pub(crate) fn release(&mut self, member: Member, key: ActorKey) -> Result<Outcome, WorldError>
        ensures { Happens result self.old self.new (lines.Release member key) }
    {
        let Some(at) = self.parts.key_place_of(&mut self.ids, &member, &key) else {
            return Ok(nothing());
        };
        let now = self.moment;
        Ok(hold_outcome(self.parts.step_at(at, PartEvent::Release { key, now })))
    }

    /// The `count` parts from this place on take a Tick each; gives the turns that they ended, plus `turns`.
    fn tick_from(&mut self, at: usize, count: usize, turns: u64) -> u64
        requires within { at + count ≤ length self.old.parts }
        requires fits { at + count < 2 ^ 63 }
        requires room { turns + count * 2 ^ 32 < 2 ^ 63 }
        ensures { Ticks result self.old self.new at count turns }
    {
        if count == 0 {
            return turns;
        }
        let reply = self.parts.step_at(at, PartEvent::Tick { now: self.moment });
        let ended = ended_turns(reply);
        self.tick_from(at + 1, count - 1, turns + ended as u64)
    }

    /// Time has passed for a member.
    pub(crate) fn tick(&mut self, member: Member) -> Result<Outcome, WorldError>
        ensures { Happens result self.old self.new (lines.Tick member) }
    {
        let Some(first) = self.parts.first_of(&member) else {
            return Ok(nothing());
        };
        let count = self.parts.per() as usize;
        let turns = self.tick_from(first, count, 0);
        Ok(Outcome::TickEnded { turns })
    }

    /// A part is to give up its next actor.
    pub(crate) fn closing(&mut self, member: Member, part: u64) -> Result<Outcome, WorldError>
        ensures { Happens result self.old self.new (lines.Closing member part) }
    {
        let Some(at) = self.parts.place_of(&member, part) else {
            return Ok(nothing());
        };
        let reply = self
            .parts
            .step_at(at, PartEvent::TakeClosing { now: self.moment });
        if wants(&reply) {
            return Err(WorldError::OutOfMemory);
        }
        Ok(closing_outcome(reply))
    }

    /// The deactivation call of an actor is over.
    pub(crate) fn closed(
        &mut self,
        alloc: Global,
        member: Member,
        key: ActorKey,
    ) -> Result<Outcome, WorldError>
        ensures { Happens result self.old self.new (lines.Closed member key) }
    {
        let Some(at) = self.parts.key_place_of(&mut self.ids, &member, &key) else {
            return Ok(nothing());
        };
        let shown = key.copy(alloc)?;
        let reply = self.parts.step_at(at, PartEvent::Closed { key });
        Ok(closed_outcome(&self.calls, shown, at, reply))
    }

    /// A part is to stop for good; this takes no memory.
    pub(crate) fn stop(&mut self, member: Member, part: u64) -> Result<Outcome, WorldError>
        ensures stops { Happens result self.old self.new (lines.Stop member part) }
        ensures memory { IsOk result }
    {
        let Some(at) = self.parts.place_of(&member, part) else {
            return Ok(nothing());
        };
        Ok(stop_outcome(self.parts.step_at(at, PartEvent::StopPart)))
    }
}
