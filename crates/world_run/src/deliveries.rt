// Deliveries of messages, and what happens to the placement without one.
ghost use Rattle.std.specs.Prelude.{◌≡◌, ◌<◌, Some, length, slice_get};
ghost use Rattle.member_roster.specs.Members.{late_of};
ghost use Rattle.placement_core.specs.Placement.{SpaceRoom, late_in};
ghost use Rattle.cluster_model.specs.World.{running_among};
ghost use Rattle.world_run.specs.Post.{Agrees, numbered, told_of};
ghost use Rattle.world_events.specs.declared.event.WorldEvent.TheVariants as lines;
ghost use Rattle.world_run.specs.Worlds.{Happens, IsToldInRange, post_of};

use crate::cluster::Cluster;
use crate::post::Post;
use actor_names::Member;
use cluster_parts::{Parts, dropped_outcome, lost_outcome, nothing, told_outcome};
use round_core::PlaceEvent;
use std::alloc::Global;
use world_events::{Outcome, WorldError};

/// The first member of the room at this place that a Tick of the placement would drop and that has a running part.
fn first_running_in(post: &Post, parts: &mut Parts, room: usize, now: u64) -> Option<Member>
    requires { room < length post.now.placement.rooms }
    ensures same { parts.new ≡ parts.old }
    ensures first { (r : SpaceRoom) → slice_get post.now.placement.rooms room ≡ Some r → result ≡ running_among parts.old.parts (late_of r.room.members now) }
{
    for at in 0..post.members_at(room) {
        if let Some(member) = post.late_at(room, at, now) {
            if !parts.all_stopped(&member) {
                return Some(member);
            }
        }
    }
    None
}

/// The first member that a Tick of the placement would drop and that has a running part.
fn first_running(post: &Post, parts: &mut Parts, now: u64) -> Option<Member>
    ensures same { parts.new ≡ parts.old }
    ensures first { result ≡ running_among parts.old.parts (late_in post.now.placement.rooms now) }
{
    for room in 0..post.rooms() {
        if let Some(member) = first_running_in(post, parts, room, now) {
            return Some(member);
        }
    }
    None
}

impl Cluster {
    /// A request is delivered to the placement.
    pub(crate) fn to(&mut self, alloc: Global, number: u64) -> Result<Outcome, WorldError>
        requires { Agrees (numbered self.old.messages number) self.old.moment (post_of self.old) }
        ensures { Happens result self.old self.new (lines.To number) }
    {
        let message = self.next_message();
        match self.post.deliver(alloc, number, self.moment)? {
            None => Ok(nothing()),
            Some(reply) => Ok(Outcome::Answered { message, reply }),
        }
    }

    /// An answer of the placement is delivered to a part of its member.
    pub(crate) fn part(
        &mut self,
        alloc: Global,
        number: u64,
        part: u64,
    ) -> Result<Outcome, WorldError>
        requires { IsToldInRange (told_of (numbered self.old.messages number) self.old.moment) }
        ensures { Happens result self.old self.new (lines.Part number part) }
    {
        let Some(told) = self.post.told_at(alloc, number, self.moment)? else {
            return Ok(nothing());
        };
        let Some(at) = self.parts.place_of(&told.member, part) else {
            return Ok(nothing());
        };
        match told.event {
            None => Ok(Outcome::Ignored),
            Some(event) => Ok(told_outcome(self.parts.step_at(at, event))),
        }
    }

    /// A member was lost; refused if it has a running part.
    pub(crate) fn lost(&mut self, alloc: Global, member: Member) -> Result<Outcome, WorldError>
        ensures { Happens result self.old self.new (lines.Lost member) }
    {
        if !self.parts.is_booted(&member) {
            return Ok(nothing());
        }
        if !self.parts.all_stopped(&member) {
            return Err(WorldError::Dishonest { member });
        }
        let reply = self
            .post
            .change(alloc, PlaceEvent::Lost { member }, self.moment)?;
        Ok(lost_outcome(member, reply))
    }

    /// Time has passed for the placement; refused if it would drop a member with a running part.
    pub(crate) fn placement_tick(&mut self, alloc: Global) -> Result<Outcome, WorldError>
        ensures { Happens result self.old self.new lines.PlacementTick }
    {
        if let Some(member) = first_running(&self.post, &mut self.parts, self.moment) {
            return Err(WorldError::Dishonest { member });
        }
        let reply = self.post.change(alloc, PlaceEvent::Tick, self.moment)?;
        Ok(dropped_outcome(reply))
    }

    /// The placement is restarted.
    pub(crate) fn restart(&mut self, alloc: Global) -> Result<Outcome, WorldError>
        ensures { Happens result self.old self.new lines.Restart }
    {
        let versions = self.post.restart(alloc, self.moment)?;
        Ok(Outcome::Restarted { versions })
    }
}
