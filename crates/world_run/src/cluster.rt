// The cluster of a world: the placement and the messages, the parts of all members, and the calls of the script.
ghost use Rattle.std.specs.Prelude.{◌≡◌, ◌<◌, ◌≤◌, ◌*◌, suc, length, slice_get};
ghost use Rattle.part_model.specs.Settings.{AreShallow};
ghost use Rattle.round_core.specs.Room.{last_version};
ghost use Rattle.placement_core.specs.Placement.{room_of};
ghost use Rattle.cluster_model.specs.World.{opening_cluster};
ghost use Rattle.cluster_parts.specs.Views.{member_in};
ghost use Rattle.world_run.specs.Worlds.{Happens, IsFit, view_of};

use crate::post::Post;
use actor_names::{Member, Space};
use cluster_parts::{Calls, KnownIds, Parts};
use std::alloc::Global;
use std::marker::Model;
use world_events::{Outcome, WorldError, WorldEvent, WorldSettings};

/// The cluster of a world.
#[derive(Drop)]
pub(crate) struct Cluster {
    pub(crate) settings: WorldSettings,
    pub(crate) post: Post,
    pub(crate) parts: Parts,
    pub(crate) calls: Calls,
    pub(crate) ids: KnownIds,
    pub(crate) moment: u64,
    pub(crate) events: u64,
}

impl Model for Cluster {
    ghost use Rattle.std.specs.Prelude.{◌≡◌};
    ghost use Rattle.part_model.specs.Settings.{AreShallow};
    ghost use Rattle.world_run.specs.Worlds.{WorldView, viewed};

    ghost Value = { WorldView };

    ghost view = { λ a. viewed a.settings a.post a.parts a.calls a.moment a.events };

    ghost invariant = { λ a. (a.parts.per ≡ a.settings.parts) × AreShallow a.settings.kinds };
}

impl Cluster {
    /// A cluster in which nothing has happened.
    pub(crate) fn new(alloc: Global, settings: WorldSettings) -> Cluster
        requires many { 0 < settings.parts }
        requires few { settings.parts ≤ 16 }
        requires shallow { AreShallow settings.kinds }
        ensures { result ≡ view_of (opening_cluster settings) }
    {
        let parts = Parts::new(alloc, settings.parts);
        Cluster {
            settings,
            post: Post::new(alloc),
            parts,
            calls: Calls::new(alloc),
            ids: KnownIds::new(alloc),
            moment: 0,
            events: 0,
        }
    }

    /// The number of the next message.
    pub(crate) fn next_message(&self) -> u64
        ensures { result ≡ suc (length self.now.messages) }
    {
        self.post.len() as u64 + 1
    }

    /// How the cluster is set up.
    pub(crate) fn settings(&self) -> &WorldSettings
        ensures { result.now ≡ self.now.settings }
    {
        &self.settings
    }

    /// The present moment.
    pub(crate) fn now(&self) -> u64
        ensures { result ≡ self.now.moment }
    {
        self.moment
    }

    /// How many nodes have started.
    pub(crate) fn boots(&self) -> u64
        ensures { result ≡ self.now.boots }
    {
        self.parts.boots()
    }

    /// The member of this number, counted from 0 in order of boot.
    pub(crate) fn member(&self, n: u64) -> Option<Member>
        ensures { result ≡ member_in (slice_get self.now.parts (n * self.now.settings.parts)) }
    {
        self.parts.member(n)
    }

    /// How many messages were added.
    pub(crate) fn messages(&self) -> u64
        ensures { result ≡ length self.now.messages }
    {
        self.post.len() as u64
    }

    /// How many calls were made.
    pub(crate) fn calls(&self) -> u64
        ensures { result ≡ length self.now.calls }
    {
        self.calls.len() as u64
    }

    /// How many turns have begun.
    pub(crate) fn begun(&self) -> u64
        ensures { result ≡ self.now.begun }
    {
        self.parts.begun()
    }

    /// How many turns have ended.
    pub(crate) fn ended(&self) -> u64
        ensures { result ≡ self.now.ended }
    {
        self.parts.ended()
    }

    /// The last version used in a space.
    pub(crate) fn last_version(&self, space: &Space) -> u64
        ensures { result ≡ last_version (room_of self.now.placement space.now) }
    {
        self.post.last_version(space)
    }

    /// How many events were done.
    pub(crate) fn events(&self) -> u64
        ensures { result ≡ self.now.events }
    {
        self.events
    }

    /// Sets how many events were done.
    pub(crate) fn set_events(&mut self, events: u64)
        ensures { self.new ≡ record self.old { events = events } }
    {
        self.events = events;
    }

    /// Sets the present moment, outside of any event.
    pub(crate) fn set_moment(&mut self, moment: u64)
        ensures { self.new ≡ record self.old { moment = moment } }
    {
        self.moment = moment;
    }

    /// Sets the present moment.
    fn at(&mut self, moment: u64) -> Result<Outcome, WorldError>
        ensures { Happens result self.old self.new (WorldEvent.At moment) }
    {
        self.moment = moment;
        Ok(Outcome::At { moment })
    }

    /// What comes of an event, or why it is refused; a refusal changes nothing.
    pub(crate) fn happens(
        &mut self,
        alloc: Global,
        event: WorldEvent,
    ) -> Result<Outcome, WorldError>
        requires { IsFit self.old event }
        ensures { Happens result self.old self.new event }
    {
        match event {
            WorldEvent::At { moment } => self.at(moment),
            WorldEvent::Boot { space, node, kinds } => self.boot(alloc, space, node, kinds),
            WorldEvent::Beat { member } => self.beat(member),
            WorldEvent::Collect { member } => self.collect(alloc, member),
            WorldEvent::Leave { member } => self.leave(alloc, member),
            WorldEvent::To { message } => self.to(alloc, message),
            WorldEvent::Part { message, part } => self.part(alloc, message, part),
            WorldEvent::Call {
                call,
                member,
                key,
                least,
                chain,
            } => self.call(call, member, key, least, chain),
            WorldEvent::Poll { call } => self.poll(call),
            WorldEvent::End { call } => self.end(call),
            WorldEvent::Hold { member, key } => self.hold(member, key),
            WorldEvent::Release { member, key } => self.release(member, key),
            WorldEvent::Tick { member } => self.tick(member),
            WorldEvent::Closing { member, part } => self.closing(member, part),
            WorldEvent::Closed { member, key } => self.closed(alloc, member, key),
            WorldEvent::Stop { member, part } => self.stop(member, part),
            WorldEvent::Lost { member } => self.lost(alloc, member),
            WorldEvent::PlacementTick => self.placement_tick(alloc),
            WorldEvent::Restart => self.restart(alloc),
        }
    }
}
