// A part as a state machine: what it is, and its actors.
ghost use Rattle.std.specs.Prelude.{◌≡◌, ◌≤◌, ◌^◌, []};
ghost use Rattle.part_model.specs.Part.{unchanged, lock_part, update_part, unlock_part, tick_part, stop_part, closed_part, stopped_step, receipt_of, ring_owner};
ghost use Rattle.part_model.specs.Rooms.{Gives, GivesEnded, GivesStep, RunsOutRightly, IsInRange};
ghost use Rattle.part_model.specs.Sound.{IsPartSound, OwnsWhenOpen};

use crate::actors::Actors;
use crate::closing::{gives_up, is_closed};
use crate::receipt::{PartReply, Receipt};
use crate::stage::{is_locked, is_stopped, is_updated};
use crate::standing::Standing;
use actor_names::ActorKey;
use part_model::{PartEvent, Stage};
use place_table::Table;
use std::marker::Model;

/// A part: its standing and its actors.
#[derive(Drop)]
pub(crate) struct Shard {
    pub(crate) standing: Standing,
    pub(crate) actors: Actors,
}

impl Model for Shard {
    ghost use Rattle.part_model.specs.Rooms.{PartView};
    ghost use Rattle.part_core.specs.Actors.{view_of, IsStandingKept};

    ghost Value = { PartView };

    ghost view = { λ a. view_of a.standing a.actors };

    ghost invariant = { λ a. IsStandingKept a.standing a.actors };
}

impl Shard {
    /// The calls that the last step began or ended.
    pub(crate) fn calls(&self) -> &[u64]
        ensures { result.now ≡ self.now.recent }
    {
        self.actors.calls()
    }

    /// Forgets the calls of the last step.
    pub(crate) fn forget(&mut self)
        ensures { self.new ≡ record self.old { recent = [] } }
    {
        self.actors.forget();
    }

    /// The receipt of the part.
    fn receipt(&self) -> Receipt
        ensures { result ≡ receipt_of ring_owner self.now.state }
    {
        self.standing.receipt()
    }

    /// The reply to a table event that changes nothing.
    fn unchanged(&mut self) -> PartReply
        ensures { Gives (unchanged ring_owner self.old.state) result self.new }
    {
        self.actors.forget();
        PartReply::TableStep {
            receipt: self.receipt(),
            changed: false,
        }
    }

    /// A round locks the part.
    fn lock(&mut self, version: u64) -> PartReply
        requires { version ≤ 2 ^ 62 }
        ensures { Gives (lock_part ring_owner self.old.state version) result self.new }
    {
        if version <= self.standing.seen {
            return self.unchanged();
        }
        self.actors.forget();
        self.standing.stage = Stage::Locked;
        self.standing.seen = version;
        PartReply::TableStep {
            receipt: self.receipt(),
            changed: true,
        }
    }

    /// The table of the round is installed, and the active actors of other owners are counted.
    fn update(&mut self, table: Table, now: u64) -> PartReply
        ensures { Gives (update_part ring_owner self.old.state table now) result self.new }
    {
        if !is_locked(&self.standing.stage) || table.version() != self.standing.seen {
            return self.unchanged();
        }
        self.actors.forget();
        self.standing.stage = Stage::Updated;
        self.standing.table = table;
        self.standing.since = now;
        self.standing.foreign = self.actors.count_foreign(&self.standing);
        PartReply::TableStep {
            receipt: self.receipt(),
            changed: true,
        }
    }

    /// The part opens with the installed table, if it is drained.
    fn unlock(&mut self, version: u64) -> PartReply
        ensures { Gives (unlock_part ring_owner self.old.state version) result self.new }
    {
        if !is_updated(&self.standing.stage) || version != self.standing.seen {
            return self.unchanged();
        }
        if self.standing.foreign > 0 {
            self.actors.forget();
            return PartReply::NotDrained {
                receipt: self.receipt(),
            };
        }
        self.standing.stage = Stage::Open;
        self.standing.opened = self.standing.seen;
        let opening = self.actors.open(&self.standing);
        PartReply::Opened {
            receipt: self.receipt(),
            begun: opening.begun,
            moved: opening.moved,
        }
    }

    /// Time has passed. In a drained part no turn of another owner's actor is open.
    fn tick(&mut self, now: u64) -> PartReply
        requires { IsPartSound ring_owner self.old.state }
        ensures { GivesEnded (tick_part ring_owner self.old.state now) result self.new }
    {
        if !is_updated(&self.standing.stage) || self.standing.foreign == 0 {
            self.actors.forget();
            return PartReply::Ticked {
                receipt: self.receipt(),
                ended: 0,
            };
        }
        let ended = self.actors.tick(&self.standing, now);
        PartReply::Ticked {
            receipt: self.receipt(),
            ended,
        }
    }

    /// The deactivation of an actor is over. If the actor is foreign, an updated part counts one foreign actor less.
    fn closed(&mut self, key: &ActorKey) -> PartReply
        requires sound { IsPartSound ring_owner self.old.state }
        requires owns { OwnsWhenOpen ring_owner self.old.state }
        ensures { Gives (closed_part ring_owner self.old.state key.now) result self.new }
    {
        let reply = self.actors.closed(&self.standing, key);
        if is_closed(&reply) && gives_up(&self.standing, key) {
            self.standing.foreign -= 1;
        }
        reply
    }

    /// The part stops for good.
    fn stop(&mut self) -> PartReply
        ensures { GivesEnded (stop_part ring_owner self.old.state) result self.new }
    {
        self.actors.stop();
        self.standing.stage = Stage::Stopped;
        PartReply::StoppedNow {
            receipt: self.receipt(),
        }
    }

    /// One step of a part that has stopped.
    fn stopped(&mut self, event: PartEvent) -> PartReply
        ensures { GivesEnded (stopped_step ring_owner self.old.state event) result self.new }
    {
        self.actors.forget();
        match event {
            PartEvent::StopPart => PartReply::StoppedNow {
                receipt: self.receipt(),
            },
            _ => PartReply::Stopped,
        }
    }

    /// One step of the part.
    pub(crate) fn step(&mut self, event: PartEvent) -> PartReply
        requires range { IsInRange event }
        requires sound { IsPartSound ring_owner self.old.state }
        requires owns { OwnsWhenOpen ring_owner self.old.state }
        ensures gives { GivesStep event result self.old.state self.new }
        ensures memory { RunsOutRightly event result self.old.state }
    {
        if is_stopped(&self.standing.stage) {
            return self.stopped(event);
        }
        match event {
            PartEvent::Ask { key, chain, .. } => self.actors.ask(&self.standing, key, chain, 0),
            PartEvent::AskAt {
                key,
                chain,
                least,
                ..
            } => self.actors.ask(&self.standing, key, chain, least),
            PartEvent::Draw => self.actors.draw(),
            PartEvent::Poll { call } => self.actors.poll(&self.standing, call),
            PartEvent::End { call, now } => self.actors.end(&self.standing, call, now),
            PartEvent::Hold { key } => self.actors.hold(&self.standing, &key),
            PartEvent::Release { key, now } => self.actors.release(&self.standing, &key, now),
            PartEvent::Lock { version } => self.lock(version),
            PartEvent::Update { table, now } => self.update(table, now),
            PartEvent::Unlock { version } => self.unlock(version),
            PartEvent::Tick { now } => self.tick(now),
            PartEvent::TakeClosing { now } => self.actors.take_closing(&self.standing, now),
            PartEvent::Closed { key } => self.closed(&key),
            PartEvent::StopPart => self.stop(),
        }
    }
}
