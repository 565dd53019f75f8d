// A part of a sidecar.
ghost use Rattle.std.specs.Prelude.{◌≡◌, [], IfOk, IfSome};
ghost use Rattle.part_model.specs.Part.{new_part, receipt_of, ring_owner};
ghost use Rattle.part_model.specs.Rooms.{GivesStep, RunsOutRightly, IsInRange};
ghost use Rattle.part_model.specs.Settings.{AreShallow};
ghost use Rattle.part_model.specs.Sound.{NoIdleWaiter, IsPartSound, AreVersionsWithin, OwnsWhenOpen, receipt_in};

use crate::actors::Actors;
use crate::receipt::PartReply;
use crate::resting::is_early;
use crate::shard::Shard;
use crate::standing::Standing;
use actor_names::OutOfMemory;
use part_model::{PartEvent, PartSettings, Stage};
use place_table::build_table;
use std::alloc::Global;
use std::marker::Model;

/// One part of a sidecar: the actors whose keys fall into it, with at most 65,536 cells.
#[derive(Drop)]
pub struct Part {
    shard: Shard,
    /// A moment before which no actor may be idle.
    quiet: u64,
}

impl Model for Part {
    ghost use Rattle.part_model.specs.Part.{ring_owner};
    ghost use Rattle.part_core.specs.Quiet.{IsQuietUntil};
    ghost use Rattle.part_model.specs.Rooms.{PartView};
    ghost use Rattle.part_model.specs.Sound.{IsPartSound, AreVersionsWithin, OwnsWhenOpen};

    ghost Value = { PartView };

    ghost view = { λ a. a.shard };

    ghost invariant = { λ a. IsPartSound ring_owner a.shard.state × AreVersionsWithin a.shard.state × OwnsWhenOpen ring_owner a.shard.state × IsQuietUntil a.shard.state a.quiet };
}

impl Part {
    /// A part that waits for its first round. It is locked at version 0, has the empty table and no actor, and has
    /// drawn no number. The depths in the settings must be at most 1,024.
    pub fn new(alloc: Global, settings: PartSettings) -> Result<Part, OutOfMemory>
        requires { AreShallow settings.kinds }
        ensures { IfOk result (λ part. part ≡ record { state = new_part settings.member settings.part settings.kinds; recent = [] }) }
    {
        let PartSettings {
            member,
            part,
            kinds,
        } = settings;
        match build_table(alloc, &member.space, 0, &[]) {
            Err(_) => Err(OutOfMemory),
            Ok(table) => {
                let standing = Standing {
                    member,
                    number: part,
                    kinds,
                    stage: Stage::Locked,
                    seen: 0,
                    opened: 0,
                    table,
                    since: 0,
                    foreign: 0,
                };
                let actors = Actors::new(alloc);
                Ok(Part {
                    shard: Shard { standing, actors },
                    quiet: 0,
                })
            }
        }
    }

    /// One step of the part. A refused event leaves the part as it was. Only Ask, AskAt, Poll and TakeClosing may run
    /// out of memory, and only where their answer takes some. After each step an open part leaves no call waiting that
    /// could run, and no active actor of an open part belongs to another owner.
    pub fn step(&mut self, event: PartEvent) -> PartReply
        requires { IsInRange event }
        ensures gives { GivesStep event result self.old.state self.new }
        ensures memory { RunsOutRightly event result self.old.state }
        ensures no_idle_waiter { NoIdleWaiter ring_owner self.new.state }
        ensures sound { IsPartSound ring_owner self.new.state }
        ensures within { AreVersionsWithin self.new.state }
        ensures owns { OwnsWhenOpen ring_owner self.new.state }
        ensures tells { IfSome (receipt_in result) (λ r. r ≡ receipt_of ring_owner self.new.state) }
    {
        if is_early(&event, self.quiet) && self.shard.gives_none() {
            self.shard.forget();
            return PartReply::NoneClosing;
        }
        let left = self.shard.lowered(&event, self.quiet);
        let reply = self.shard.step(event);
        self.quiet = self.shard.quiet_after(&reply, left);
        reply
    }

    /// The calls whose turns the last step began or, for Tick and StopPart, ended: actors in order of key (space, type,
    /// id), and the calls of each actor in the order in which their turns began. Takes no memory.
    pub fn calls(&self) -> &[u64]
        ensures { result.now ≡ self.now.recent }
    {
        self.shard.calls()
    }
}
