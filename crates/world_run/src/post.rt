// The placement, and every message that was added.
ghost use Rattle.std.specs.Prelude.{◌≡◌, ◌<◌, ◌^◌, List, ◌++◌, ◌∷◌, [], true, false, length, None, Some, IfOk, OnOk, OnErr, MatchOption, map, slice_get};
ghost use Rattle.member_roster.specs.Members.{Joined};
ghost use Rattle.round_core.specs.Room.{last_version};
ghost use Rattle.placement_core.specs.Placement.{SpaceRoom, room_of, new_placement, placement_step, placement_restarted};
ghost use Rattle.cluster_model.specs.Messages.{Message};
ghost use Rattle.cluster_model.specs.World.{restarted_versions};
ghost use Rattle.world_run.specs.Looks.{asks_at};
ghost use Rattle.placement_core.specs.Views.{IsMemberPlace};
ghost use Rattle.world_run.specs.Post.{message_in, told_tables, table_or, late_member, numbered, told_of, is_request, is_register, GivesReply, version_in, started_version, last_for, LastAsks, Delivers, Agrees};

use crate::kept::{
    Kept, Told, Wanted, asked_at, is_register, is_request, kept_answer, place_wants, spot_for,
    updated_version,
};
use actor_names::{Member, OutOfMemory, Space};
use part_model::PartEvent;
use place_table::{Table, build_table};
use placement_core::Placement;
use round_core::{PlaceEvent, PlaceReply};
use std::alloc::Global;
use std::marker::Model;
use world_events::Versions;

/// The placement, and every message that was added. The table of a version is built when it is first needed, and then
/// shared by the messages that send it one after the other; until then the placement has its hosts.
#[derive(Drop)]
pub(crate) struct Post {
    placement: Placement,
    messages: Vec<Kept>,
    tables: Vec<Table>,
    pending: Option<Wanted>,
    last: usize,
}

impl Model for Post {
    ghost use Rattle.std.specs.Prelude.{length};
    ghost use Rattle.world_run.specs.Post.{PostView, messages_in, told_tables, IsPostKept};

    ghost Value = { PostView };

    ghost view = { λ a. record { placement = a.placement.state; messages = messages_in (told_tables a.tables.items a.pending a.placement.state) a.messages.items } };

    ghost invariant = { λ a. IsPostKept (length (told_tables a.tables.items a.pending a.placement.state)) a.messages.items a.last };
}

/// Builds the table that was sent and isn't built yet.
fn settle(
    alloc: Global,
    placement: &Placement,
    tables: &mut Vec<Table>,
    pending: &mut Option<Wanted>,
) -> Result<(), OutOfMemory>
    ensures same { told_tables tables.new.items pending.new placement.now.state ≡ told_tables tables.old.items pending.old placement.now.state }
    ensures settled { OnOk result (pending.new ≡ None) }
{
    let Some(wanted) = *pending else {
        return Ok(());
    };
    let hosts = placement.table_hosts(&wanted.space);
    match build_table(alloc, &wanted.space, wanted.version, hosts) {
        Err(_) => Err(OutOfMemory),
        Ok(table) => {
            tables.push(table)?;
            *pending = None;
            Ok(())
        }
    }
}

/// The placement takes a step; none if it ran out of memory and is as before.
fn step_placement(placement: &mut Placement, event: PlaceEvent, now: u64) -> Option<PlaceReply>
    ensures { MatchOption result (placement.new.state ≡ placement.old.state) (λ reply. GivesReply event now reply placement.old.state placement.new.state) }
{
    let registers = is_register(&event);
    let reply = placement.step(event, now);
    if registers && place_wants(reply) {
        None
    } else {
        Some(reply)
    }
}

/// The version of the round that a restart started, from the last versions before and after it; 0 for none.
fn started_version(before: u64, after: u64) -> u64
    ensures { result ≡ started_version before after }
{
    if after == before { 0 } else { after }
}

/// The last version of each room, in order of space.
fn last_versions(alloc: Global, placement: &Placement) -> Result<Vec<u64>, OutOfMemory>
    ensures { IfOk result (λ v. v.items ≡ map version_in placement.now.state.rooms) }
{
    let mut versions = Vec::new(alloc);
    for at in 0..placement.rooms() {
        versions.push(placement.last_version_at(at))?;
    }
    Ok(versions)
}

/// Replaces the rooms' last versions before a restart with the versions of the rounds that it started in them.
fn start_versions(versions: &mut Vec<u64>, placement: &Placement)
    requires { length versions.old.items ≡ length placement.now.state.rooms }
    ensures { (rooms : List SpaceRoom) → versions.old.items ≡ map version_in rooms → versions.new.items ≡ restarted_versions rooms placement.now.state.rooms }
{
    for at in 0..placement.rooms() {
        let before = versions[at];
        versions[at] = started_version(before, placement.last_version_at(at));
    }
}

/// The place of the message that brought the last table, after one more message.
fn last_for(version: Option<u64>, count: usize, last: usize) -> usize
    ensures { result ≡ last_for version count last }
{
    match version {
        None => last,
        Some(_) => count,
    }
}

/// The table at this place of those that were sent, built if need be.
fn told_table(
    alloc: Global,
    placement: &Placement,
    tables: &mut Vec<Table>,
    pending: &mut Option<Wanted>,
    at: usize,
) -> Result<Table, OutOfMemory>
    requires { at < length (told_tables tables.old.items pending.old placement.now.state) }
    ensures same { told_tables tables.new.items pending.new placement.now.state ≡ told_tables tables.old.items pending.old placement.now.state }
    ensures told { IfOk result (λ t. t ≡ table_or (slice_get (told_tables tables.old.items pending.old placement.now.state) at)) }
{
    settle(alloc, placement, tables, pending)?;
    tables[at].copy()
}

impl Post {
    /// The opening placement, and no message.
    pub(crate) fn new(alloc: Global) -> Post
        ensures { result ≡ record { placement = new_placement; messages = [] } }
    {
        Post {
            placement: Placement::new(alloc),
            messages: Vec::new(alloc),
            tables: Vec::new(alloc),
            pending: None,
            last: 0,
        }
    }

    /// How many messages there are.
    pub(crate) fn len(&self) -> usize
        ensures value { result ≡ length self.now.messages }
        ensures fits { result < 2 ^ 63 }
    {
        self.messages.len()
    }

    /// Whether the message of this number is a request, if there is one.
    pub(crate) fn asks(&self, number: u64) -> Option<bool>
        ensures { result ≡ asks_at self.now.messages number }
    {
        if number == 0 || number > self.messages.len() as u64 {
            return None;
        }
        Some(is_request(&self.messages[number as usize - 1]))
    }

    /// The last version used in a space, 0 before its first round.
    pub(crate) fn last_version(&self, space: &Space) -> u64
        ensures { result ≡ last_version (room_of self.now.placement space.now) }
    {
        self.placement.last_version(space)
    }

    /// Adds a request as the next message.
    pub(crate) fn ask(&mut self, request: Kept) -> Result<(), OutOfMemory>
        requires { is_request request ≡ true }
        ensures ok { OnOk result (self.new ≡ record self.old { messages = self.old.messages ++ message_in [] request ∷ [] }) }
        ensures err { OnErr result (self.new ≡ self.old) }
    {
        self.messages.push(request)?;
        Ok(())
    }

    /// Takes back the last message, a request.
    pub(crate) fn withdraw(&mut self)
        requires { LastAsks self.old.messages }
        ensures { (ms : List Message) (x : Message) → self.old.messages ≡ ms ++ x ∷ [] → self.new ≡ record self.old { messages = ms } }
    {
        let _ = self.messages.pop();
    }

    /// Delivers a request, and adds the placement's reply as the next message; nothing if there is no such request.
    /// Room for the reply is reserved before the placement's step.
    pub(crate) fn deliver(
        &mut self,
        alloc: Global,
        number: u64,
        now: u64,
    ) -> Result<Option<PlaceReply>, OutOfMemory>
        requires { Agrees (numbered self.old.messages number) now self.old }
        ensures ok { IfOk result (λ reply. Delivers (numbered self.old.messages number) now reply self.old self.new) }
        ensures err { OnErr result (self.new ≡ self.old) }
    {
        let Some(asked) = asked_at(alloc, self.messages.as_slice(), number)? else {
            return Ok(None);
        };
        settle(alloc, &self.placement, &mut self.tables, &mut self.pending)?;
        self.messages.reserve(1)?;
        let Some(reply) = step_placement(&mut self.placement, asked.event, now) else {
            return Err(OutOfMemory);
        };
        let version = updated_version(reply);
        let spot = spot_for(self.tables.as_slice(), &asked.member.space, version);
        self.last = last_for(version, self.messages.len(), self.last);
        self.pending = spot.pending;
        self.messages
            .push(kept_answer(asked.member, reply, spot.table))
            .unwrap();
        Ok(Some(reply))
    }

    /// What the message of this number brings; nothing if it isn't an answer of the placement.
    pub(crate) fn told_at(
        &mut self,
        alloc: Global,
        number: u64,
        now: u64,
    ) -> Result<Option<Told>, OutOfMemory>
        ensures told { IfOk result (λ o. o ≡ told_of (numbered self.old.messages number) now) }
        ensures same { self.new ≡ self.old }
    {
        if number == 0 || number > self.messages.len() as u64 {
            return Ok(None);
        }
        let at = number as usize - 1;
        match &self.messages[at] {
            Kept::Lock { member, version } => Ok(Some(Told {
                member: *member,
                event: Some(PartEvent::Lock { version: *version }),
            })),
            Kept::Unlock { member, version } => Ok(Some(Told {
                member: *member,
                event: Some(PartEvent::Unlock { version: *version }),
            })),
            Kept::Says { member, .. } => Ok(Some(Told {
                member: *member,
                event: None,
            })),
            Kept::Update { member, table } => {
                let member = *member;
                let place = *table;
                let table = told_table(
                    alloc,
                    &self.placement,
                    &mut self.tables,
                    &mut self.pending,
                    place,
                )?;
                Ok(Some(Told {
                    member,
                    event: Some(PartEvent::Update { table, now }),
                }))
            }
            _ => Ok(None),
        }
    }

    /// The placement takes a step that no message brings.
    pub(crate) fn change(
        &mut self,
        alloc: Global,
        event: PlaceEvent,
        now: u64,
    ) -> Result<PlaceReply, OutOfMemory>
        requires { is_register event ≡ false }
        ensures reply { IfOk result (λ reply. reply ≡ (placement_step self.old.placement event now).reply) }
        ensures ok { OnOk result (self.new ≡ record self.old { placement = (placement_step self.old.placement event now).state }) }
        ensures err { OnErr result (self.new ≡ self.old) }
    {
        settle(alloc, &self.placement, &mut self.tables, &mut self.pending)?;
        Ok(self.placement.step(event, now))
    }

    /// Restarts the placement; gives the version of the round that each room starts, 0 for none, in order of space.
    pub(crate) fn restart(&mut self, alloc: Global, now: u64) -> Result<Versions, OutOfMemory>
        ensures versions { IfOk result (λ versions. versions ≡ restarted_versions self.old.placement.rooms (placement_restarted self.old.placement now).rooms) }
        ensures ok { OnOk result (self.new ≡ record self.old { placement = placement_restarted self.old.placement now }) }
        ensures err { OnErr result (self.new ≡ self.old) }
    {
        settle(alloc, &self.placement, &mut self.tables, &mut self.pending)?;
        let mut versions = last_versions(alloc, &self.placement)?;
        self.placement.restarted(now);
        start_versions(&mut versions, &self.placement);
        Ok(Versions::from_vec(versions))
    }

    /// How many rooms the placement has.
    pub(crate) fn rooms(&self) -> usize
        ensures { result ≡ length self.now.placement.rooms }
    {
        self.placement.rooms()
    }

    /// How many members the room at this place has.
    pub(crate) fn members_at(&self, room: usize) -> usize
        requires { room < length self.now.placement.rooms }
        ensures { (r : SpaceRoom) → slice_get self.now.placement.rooms room ≡ Some r → result ≡ length r.room.members }
    {
        self.placement.members_at(room).len()
    }

    /// The member at this place of the room at that place, if a Tick at this moment would drop it.
    pub(crate) fn late_at(&self, room: usize, at: usize, now: u64) -> Option<Member>
        requires { IsMemberPlace self.now.placement.rooms room at }
        ensures { (r : SpaceRoom) (j : Joined) → slice_get self.now.placement.rooms room ≡ Some r → slice_get r.room.members at ≡ Some j → result ≡ late_member now j }
    {
        if self.placement.is_late(room, at, now) {
            Some(self.placement.members_at(room)[at].member)
        } else {
            None
        }
    }
}
