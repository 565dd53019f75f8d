// The world of a cluster whose placement and members have clocks of their own, and whose members hold leases.
ghost use Rattle.std.specs.Prelude.{◌≡◌, ◌<◌, ◌≤◌};
ghost use Rattle.actor_names.specs.declared.member.Member.{Member as MemberName};
ghost use Rattle.turn_core.specs.CellSound.{In};
ghost use Rattle.part_model.specs.Settings.{AreShallow};
ghost use Rattle.part_model.specs.Part.{ring_owner};
ghost use Rattle.placement_core.specs.Placement.{late_in};
ghost use Rattle.cluster_model.specs.World.{key_part};
ghost use Rattle.cluster_model.specs.Invariant.{AllStopped};
ghost use Rattle.lease_core.specs.Leased.{LeasedCluster, opening_leased, leased_step, leased_view, GivesLeased, IsReachedLease, OnlyLostIsDishonest};

use crate::book::Book;
use crate::error::LeaseError;
use crate::event::LeaseEvent;
use crate::stepping::step_both;
use std::alloc::Global;
use std::marker::Model;
use world_events::{Outcome, WorldSettings};
use world_run::World;

/// The world of a cluster whose placement and members have clocks of their own, and whose members hold leases. All clocks
/// begin at 0, a member's and its lease at its boot.
#[derive(Drop)]
pub struct LeaseWorld {
    world: World,
    book: Book,
}

impl Model for LeaseWorld {
    ghost use Rattle.lease_core.specs.Books.{book_of};
    ghost use Rattle.lease_core.specs.Leased.{LeaseView, IsReachedLease};

    ghost Value = { LeaseView };

    ghost view = { λ a. record { world = a.world; book = book_of a.book } };

    ghost invariant = { λ a. IsReachedLease (record { world = a.world; book = book_of a.book }) };
}

impl LeaseWorld {
    /// A world in which nothing has happened. It takes no memory.
    pub fn new(alloc: Global, settings: WorldSettings) -> LeaseWorld
        requires many { 0 < settings.parts }
        requires few { settings.parts ≤ 16 }
        requires shallow { AreShallow settings.kinds }
        ensures { result ≡ leased_view (opening_leased settings) }
    {
        LeaseWorld {
            world: World::new(alloc, settings),
            book: Book::new(alloc),
        }
    }

    /// Each world with leases is what a run of events leads to.
    pub(crate) fn is_reached(&self)
        ensures { IsReachedLease self.now }
    {
        let _ = &self.book;
    }

    /// What comes of an event, or why it is refused; a refusal changes nothing. An event of the world has its outcome,
    /// a pass and an answer have none. For each leased cluster with this view it is what comes of the event in the
    /// model, or `OutOfMemory`. Whatever happens, each member that a Tick of the placement would drop then has only
    /// stopped parts; so only a `lost` is refused because its member runs.
    pub fn step(&mut self, alloc: Global, event: LeaseEvent) -> Result<Option<Outcome>, LeaseError>
        ensures given { (c : LeasedCluster) → leased_view c ≡ self.old → GivesLeased result self.old (leased_step ring_owner key_part c event) self.new }
        ensures stopped { (m : MemberName) → In m (late_in self.new.world.placement.rooms self.new.book.clock) → AllStopped self.new.world.parts m }
        ensures honest { OnlyLostIsDishonest event result }
    {
        step_both(alloc, &mut self.world, &mut self.book, event)
    }
}
