// The world of a cluster script.
ghost use Rattle.std.specs.Prelude.{◌≡◌, ◌<◌, ◌≤◌, length};
ghost use Rattle.part_model.specs.Settings.{AreShallow};
ghost use Rattle.part_model.specs.Part.{ring_owner};
ghost use Rattle.round_core.specs.Room.{last_version};
ghost use Rattle.placement_core.specs.Placement.{room_of};
ghost use Rattle.cluster_model.specs.World.{ClusterState, key_part, cluster_step, opening_cluster};
ghost use Rattle.world_run.specs.Worlds.{GivesStep, Runs, view_of, open_turns};

mod looks;
mod moments;

use crate::cluster::Cluster;
use actor_names::Space;
use std::alloc::Global;
use std::marker::Model;
use world_events::{Outcome, WorldError, WorldEvent, WorldSettings};

/// The greatest number of events of a world, 2^62.
const MOST_EVENTS: u64 = 1 << 62;

/// The world of a cluster script: a placement, the parts of all members, every message ever added and every call. It is
/// safe, whatever happened in it.
#[derive(Drop)]
pub struct World {
    cluster: Cluster,
}

impl Model for World {
    ghost use Rattle.part_model.specs.Part.{ring_owner};
    ghost use Rattle.cluster_model.specs.Invariant.{IsSafeWorld};
    ghost use Rattle.world_run.specs.Worlds.{WorldView, cluster_of};

    ghost Value = { WorldView };

    ghost view = { λ a. a.cluster };

    ghost invariant = { λ a. IsSafeWorld ring_owner (cluster_of a.cluster) };
}

impl World {
    /// A world in which nothing has happened, at moment 0. It takes no memory.
    pub fn new(alloc: Global, settings: WorldSettings) -> World
        requires many { 0 < settings.parts }
        requires few { settings.parts ≤ 16 }
        requires shallow { AreShallow settings.kinds }
        ensures { result ≡ view_of (opening_cluster settings) }
    {
        World {
            cluster: Cluster::new(alloc, settings),
        }
    }

    /// How the cluster is set up.
    pub fn settings(&self) -> &WorldSettings
        ensures { result.now ≡ self.now.settings }
    {
        self.cluster.settings()
    }

    /// The present moment, in milliseconds.
    pub fn now(&self) -> u64
        ensures { result ≡ self.now.moment }
    {
        self.cluster.now()
    }

    /// How many nodes have started.
    pub fn boots(&self) -> u64
        ensures { result ≡ self.now.boots }
    {
        self.cluster.boots()
    }

    /// How many messages were added.
    pub fn messages(&self) -> u64
        ensures { result ≡ length self.now.messages }
    {
        self.cluster.messages()
    }

    /// How many calls were made; refused ones count.
    pub fn calls(&self) -> u64
        ensures { result ≡ length self.now.calls }
    {
        self.cluster.calls()
    }

    /// How many turns have begun; the count stops at 2^64 - 1.
    pub fn begun(&self) -> u64
        ensures { result ≡ self.now.begun }
    {
        self.cluster.begun()
    }

    /// How many turns are open: those that have begun minus those that have ended.
    pub fn open_turns(&self) -> u64
        ensures { result ≡ open_turns self.now }
    {
        self.cluster.begun().saturating_sub(self.cluster.ended())
    }

    /// The last version used in a space, 0 before its first round.
    pub fn last_version(&self, space: &Space) -> u64
        ensures { result ≡ last_version (room_of self.now.placement space.now) }
    {
        self.cluster.last_version(space)
    }

    /// What comes of an event, or why it is refused; a refusal changes nothing. For each cluster with this view it is
    /// what comes of the event in the model, or `OutOfMemory`.
    pub fn step(&mut self, alloc: Global, event: WorldEvent) -> Result<Outcome, WorldError>
        ensures { (w : ClusterState) → view_of w ≡ self.old → GivesStep result self.old (cluster_step ring_owner key_part w event) self.new }
    {
        let events = self.cluster.events();
        if events >= MOST_EVENTS {
            return Err(WorldError::Spent { count: events });
        }
        let result = self.cluster.happens(alloc, event);
        if result.is_ok() {
            self.cluster.set_events(events + 1);
        }
        result
    }

    /// What comes of events in their order, up to the first one that is refused or runs out of memory; the outcomes of
    /// those before it are appended to `outcomes`.
    pub fn run(
        &mut self,
        alloc: Global,
        events: Vec<WorldEvent>,
        outcomes: &mut Vec<Outcome>,
    ) -> Result<(), WorldError>
        ensures { (w : ClusterState) → view_of w ≡ self.old → Runs w events.items outcomes.old.items result outcomes.new.items self.new }
    {
        for event in events {
            outcomes.reserve(1)?;
            let outcome = self.step(alloc, event)?;
            outcomes.push(outcome).unwrap();
        }
        Ok(())
    }
}
