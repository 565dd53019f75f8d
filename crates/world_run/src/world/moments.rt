// Events at a moment of their own, and stops of parts, which take no memory.
ghost use Rattle.std.specs.Prelude.{◌≡◌, ◌<◌, ◌^◌, ◌+◌};
ghost use Rattle.part_model.specs.Part.{ring_owner};
ghost use Rattle.world_events.specs.declared.event.WorldEvent.TheVariants as lines;
ghost use Rattle.cluster_model.specs.World.{ClusterState, key_part, cluster_step};
ghost use Rattle.world_run.specs.Moments.{IsNotAt, event_at};
ghost use Rattle.world_run.specs.Worlds.{GivesStep, IsStep, view_of};

use crate::world::{MOST_EVENTS, World};
use actor_names::Member;
use std::alloc::Global;
use world_events::{Outcome, WorldError, WorldEvent};

impl World {
    /// What comes of an event at the moment `now`, in milliseconds, in place of the present one, which stays. A refusal
    /// changes nothing. For each cluster with this view it is what comes of the event in the model, or `OutOfMemory`. At
    /// the present moment it is what `step` gives, unless the event sets the moment.
    pub fn step_at(
        &mut self,
        alloc: Global,
        event: WorldEvent,
        now: u64,
    ) -> Result<Outcome, WorldError>
        ensures given { (w : ClusterState) → view_of w ≡ self.old → GivesStep result self.old (event_at ring_owner key_part w event now) self.new }
        ensures present { IsNotAt event → now ≡ self.old.moment → (w : ClusterState) → view_of w ≡ self.old → GivesStep result self.old (cluster_step ring_owner key_part w event) self.new }
        ensures stays { self.new.moment ≡ self.old.moment }
    {
        let present = self.cluster.now();
        self.cluster.set_moment(now);
        let result = self.step(alloc, event);
        self.cluster.set_moment(present);
        result
    }

    /// What comes of a member's part being told to stop, as `step` says of the event; it takes no memory.
    pub fn stop(&mut self, member: Member, part: u64) -> Result<Outcome, WorldError>
        ensures { (w : ClusterState) → view_of w ≡ self.old → IsStep result (cluster_step ring_owner key_part w (lines.Stop member part)) self.new }
    {
        let events = self.cluster.events();
        if events >= MOST_EVENTS {
            return Err(WorldError::Spent { count: events });
        }
        let result = self.cluster.stop(member, part);
        self.cluster.set_events(events + 1);
        result
    }
}
