// The placement: one step at a time, each in the room of its space.
ghost use Rattle.std.specs.Prelude.{◌≡◌, ◌↔◌, ◌<◌, ◌≤◌, [], Some, None, IfOk, IfSome, OnOk, OnErr, length, map, option_map};
ghost use Rattle.std.specs.List.{AllByRecursion, slice_get};
ghost use Rattle.member_roster.specs.Members.{hosts_of, is_late, Joined};
ghost use Rattle.member_roster.specs.Places.{Ascends, host_node};
ghost use Rattle.round_core.specs.Room.{last_version};
ghost use Rattle.placement_core.specs.Beats.{IsQuietBeat};
ghost use Rattle.placement_core.specs.Entries.{placement_record, placement_restart_record};
ghost use Rattle.placement_core.specs.Kept.{kept, kept_entries, kept_space, shown};
ghost use Rattle.placement_core.specs.Placement.{SpaceRoom, new_placement, room_at, room_of, placement_restarted};
ghost use Rattle.placement_core.specs.Runs.{AreRooms, SameRooms};
ghost use Rattle.placement_core.specs.Sound.{AllHaveFewTypes, AreOfSpaces, IsKeptSound, IsPlacementSound};
ghost use Rattle.round_core.specs.Sound.{BringsFewTypes};
ghost use Rattle.placement_core.specs.Views.{ActsIn, Gives, GivesInMemory, GivesStep, IsMemberPlace, IsOfMember, LeavesRecord, lent_entry};

use crate::entry::RoomEntry;
use crate::rooms::Rooms;
use crate::sweep::KeptRoom;
use actor_names::{Member, OutOfMemory, Space, default_space};
use place_table::HostInfo;
use round_core::{PlaceEvent, PlaceReply, Room, RoundPhase};
use std::alloc::Global;
use std::marker::Model;

/// The most spaces of a placement.
pub const MOST_SPACES: u32 = 64;

/// The rooms of a cluster, one for each space, in byte order of space: at most 64, at first only that of `default`. The
/// opening placement keeps no room yet, so that it takes no memory.
#[derive(Drop)]
pub struct Placement {
    alloc: Global,
    rooms: Rooms,
}

impl Model for Placement {
    ghost use Rattle.placement_core.specs.Kept.{shown};
    ghost use Rattle.placement_core.specs.Views.{PlacementView};

    ghost Value = { PlacementView };

    ghost view = { λ a. record { state = shown a.rooms.rooms; recent = a.rooms.recent } };
}

/// Keeps the room `default`, if no room is kept yet.
fn keep_default(alloc: Global, rooms: &mut Rooms) -> Result<(), OutOfMemory>
    requires quiet { rooms.old.recent ≡ [] }
    ensures ok { OnOk result (rooms.new.rooms ≡ (shown rooms.old.rooms).rooms) }
    ensures err { OnErr result (rooms.new.rooms ≡ rooms.old.rooms) }
    ensures recent { rooms.new.recent ≡ [] }
{
    if rooms.len() > 0 {
        return Ok(());
    }
    rooms.insert(default_space(), Room::new(alloc))
}

/// The space of the member that acts; None for a Register, a Tick and a Look.
fn acting_space(event: &PlaceEvent) -> Option<Space>
    ensures { ActsIn event.now result }
{
    match event {
        PlaceEvent::Beat { member } => Some(member.space),
        PlaceEvent::Ack {
            member,
            stage: _,
            version: _,
        } => Some(member.space),
        PlaceEvent::Leave { member } => Some(member.space),
        PlaceEvent::Lost { member } => Some(member.space),
        _ => None,
    }
}

/// A host joins a space that has no room: the room is made, unless the host is refused.
fn open_room(alloc: Global, rooms: &mut Rooms, host: HostInfo, now: u64) -> PlaceReply
    requires kept { 0 < length rooms.old.rooms }
    requires free { room_at rooms.old.rooms host.member.space ≡ None }
    requires quiet { rooms.old.recent ≡ [] }
    ensures gives { GivesInMemory (PlaceEvent.Register host) now result (shown rooms.old.rooms) (shown rooms.new.rooms) }
    ensures recent { LeavesRecord (PlaceEvent.Register host) now result (shown rooms.old.rooms) rooms.new.recent }
{
    let spaces = rooms.len();
    if spaces >= MOST_SPACES {
        return PlaceReply::SpacesFull { spaces };
    }
    let member = host.member;
    if member.boot == 0 {
        return PlaceReply::StaleBoot { greatest: 0 };
    }
    let event = PlaceEvent::Register { host };
    let mut room = Room::new(alloc);
    let reply = room.step(event, now);
    if matches!(reply, PlaceReply::OutOfMemory) {
        return PlaceReply::OutOfMemory;
    }
    match rooms.insert(member.space, room) {
        Ok(()) => reply,
        Err(_) => PlaceReply::OutOfMemory,
    }
}

impl Placement {
    /// The opening state: the room `default`, without members. It takes no memory.
    pub fn new(alloc: Global) -> Placement
        ensures state { result.state ≡ new_placement }
        ensures recent { result.recent ≡ [] }
        ensures sound { IsPlacementSound result.state }
    {
        Placement {
            alloc,
            rooms: Rooms::new(alloc),
        }
    }

    /// A placement of rooms that were all restarted.
    pub(crate) fn from_restarted(alloc: Global, rooms: Vec<KeptRoom>) -> Placement
        requires order { Ascends kept_space rooms.items }
        requires few { length rooms.items ≤ 64 }
        requires kept { 0 < length rooms.items }
        requires sound { AllByRecursion IsKeptSound rooms.items }
        ensures state { result.state ≡ record { rooms = map kept rooms.items } }
        ensures recent { result.recent ≡ kept_entries rooms.items }
    {
        Placement {
            alloc,
            rooms: Rooms::from_restarted(rooms),
        }
    }

    /// The hosts of the table of this space that was fixed last, in byte order of node; none before the first table,
    /// also after a restart, and for a space without a room.
    pub fn table_hosts(&self, space: &Space) -> &[HostInfo]
        ensures hosts { result.now ≡ (room_of self.now.state space.now).table }
        ensures order { Ascends host_node result.now }
    {
        match self.rooms.room(space) {
            Some(room) => room.table_hosts(),
            None => &[],
        }
    }

    /// The hosts of this space's members, in byte order of node; none for a space without a room.
    pub fn members(&self, space: &Space) -> &[HostInfo]
        ensures hosts { result.now ≡ hosts_of (room_of self.now.state space.now).members }
        ensures order { Ascends host_node result.now }
    {
        match self.rooms.room(space) {
            Some(room) => room.members(),
            None => &[],
        }
    }

    /// The last version used in this space, 0 before the first round, and for a space without a room.
    pub fn last_version(&self, space: &Space) -> u64
        ensures { result ≡ last_version (room_of self.now.state space.now) }
    {
        match self.rooms.room(space) {
            Some(room) => room.last_version(),
            None => 0,
        }
    }

    /// How many rooms there are, at most 64. They are in byte order of space, no space twice. The clause `sound` holds of
    /// every placement.
    pub fn rooms(&self) -> usize
        ensures count { result ≡ length self.now.state.rooms }
        ensures within { result ≤ 64 }
        ensures order { AreRooms self.now.state.rooms }
        ensures sound { IsPlacementSound self.now.state }
    {
        let rooms = self.rooms.len();
        if rooms == 0 { 1 } else { rooms as usize }
    }

    /// The space of the room at this index, from 0 in byte order of space.
    pub fn space_at(&self, at: usize) -> Space
        requires { at < length self.now.state.rooms }
        ensures { (r : SpaceRoom) → slice_get self.now.state.rooms at ≡ Some r → result ≡ r.space }
    {
        if self.rooms.len() == 0 {
            return default_space();
        }
        self.rooms.space_at(at)
    }

    /// The hosts of the members of the room at this index, in byte order of node.
    pub fn members_at(&self, at: usize) -> &[HostInfo]
        requires { at < length self.now.state.rooms }
        ensures hosts { (r : SpaceRoom) → slice_get self.now.state.rooms at ≡ Some r → result.now ≡ hosts_of r.room.members }
        ensures order { Ascends host_node result.now }
    {
        if self.rooms.len() == 0 {
            return &[];
        }
        self.rooms.room_at(at).members()
    }

    /// The last version used in the room at this index, 0 before its first round.
    pub fn last_version_at(&self, at: usize) -> u64
        requires { at < length self.now.state.rooms }
        ensures { (r : SpaceRoom) → slice_get self.now.state.rooms at ≡ Some r → result ≡ last_version r.room }
    {
        if self.rooms.len() == 0 {
            return 0;
        }
        self.rooms.room_at(at).last_version()
    }

    /// Whether a round is running in the room at this index, and in which stage. Its version is the last one used there.
    pub fn phase_at(&self, at: usize) -> RoundPhase
        requires { at < length self.now.state.rooms }
        ensures { (r : SpaceRoom) → slice_get self.now.state.rooms at ≡ Some r → result ≡ r.room.phase }
    {
        if self.rooms.len() == 0 {
            return RoundPhase::Quiet;
        }
        self.rooms.room_at(at).phase()
    }

    /// Whether the running round waits for the member at this index of `members_at`: it hasn't acknowledged the stage.
    pub fn is_pending(&self, at: usize, member: usize) -> bool
        requires { IsMemberPlace self.now.state.rooms at member }
        ensures { (r : SpaceRoom) (j : Joined) → slice_get self.now.state.rooms at ≡ Some r → slice_get r.room.members member ≡ Some j → result ≡ j.pending }
    {
        if self.rooms.len() == 0 {
            return false;
        }
        self.rooms.room_at(at).is_pending(member)
    }

    /// Whether the member at this index of `members_at` was not heard for 10,000 milliseconds or more at the moment
    /// `now`. These are the members that a Tick at that moment drops.
    pub fn is_late(&self, at: usize, member: usize, now: u64) -> bool
        requires { IsMemberPlace self.now.state.rooms at member }
        ensures { (r : SpaceRoom) (j : Joined) → slice_get self.now.state.rooms at ≡ Some r → slice_get r.room.members member ≡ Some j → result ≡ is_late now j }
    {
        if self.rooms.len() == 0 {
            return false;
        }
        self.rooms.room_at(at).is_late(member, now)
    }

    /// What a Beat of this member is answered, if it changes nothing but the moment at which the member was heard,
    /// whenever it comes: it leaves no record, and takes no memory. None if more may change, or if it is no member.
    pub fn beat_reply(&self, member: &Member) -> Option<PlaceReply>
        ensures { IfSome result (λ reply. IsQuietBeat self.now.state member.now reply) }
    {
        match self.rooms.room(&member.space) {
            Some(room) => room.beat_reply(member),
            None => None,
        }
    }

    /// The entry at this index, counted from 0, of what has to be on the disk before the reply of the last step or
    /// restart goes out; lending it takes no memory. There is an entry for each room that has something to record, in
    /// byte order of space; None behind the last one, so None at 0 if there is nothing to record.
    pub fn entry(&self, at: usize) -> Option<RoomEntry<'_>>
        ensures { option_map lent_entry result ≡ slice_get self.now.recent at }
    {
        self.rooms.entry(at)
    }

    /// A host asks to join the room of its space, or is heard again.
    fn register(&mut self, host: HostInfo, now: u64) -> PlaceReply
        ensures gives { GivesInMemory (PlaceEvent.Register host) now result self.old.state self.new.state }
        ensures recent { LeavesRecord (PlaceEvent.Register host) now result self.old.state self.new.recent }
    {
        self.rooms.forget();
        if keep_default(self.alloc, &mut self.rooms).is_err() {
            return PlaceReply::OutOfMemory;
        }
        let member = host.member;
        if self.rooms.room(&member.space).is_none() {
            return open_room(self.alloc, &mut self.rooms, host, now);
        }
        let event = PlaceEvent::Register { host };
        match self.rooms.step(&member.space, event, now) {
            Some(reply) => reply,
            None => unreachable!(),
        }
    }

    /// What a member does in the room of its space.
    fn act(&mut self, space: Space, event: PlaceEvent, now: u64) -> PlaceReply
        requires { IsOfMember event space }
        ensures gives { Gives event now result self.old.state self.new.state }
        ensures recent { LeavesRecord event now result self.old.state self.new.recent }
    {
        match self.rooms.step(&space, event, now) {
            Some(reply) => reply,
            None => PlaceReply::NotMember { greatest: 0 },
        }
    }

    /// Time has passed in all rooms.
    fn tick(&mut self, now: u64) -> PlaceReply
        ensures gives { Gives PlaceEvent.Tick now result self.old.state self.new.state }
        ensures recent { LeavesRecord PlaceEvent.Tick now result self.old.state self.new.recent }
    {
        let dropped = self.rooms.tick(now);
        PlaceReply::Ticked { dropped }
    }

    /// One step, each event by the call that follows it.
    fn change(&mut self, event: PlaceEvent, now: u64) -> PlaceReply
        ensures gives { GivesStep event now result self.old.state self.new.state }
        ensures recent { LeavesRecord event now result self.old.state self.new.recent }
    {
        if let Some(space) = acting_space(&event) {
            return self.act(space, event, now);
        }
        match event {
            PlaceEvent::Register { host } => self.register(host, now),
            PlaceEvent::Tick => self.tick(now),
            PlaceEvent::Look => {
                self.rooms.forget();
                PlaceReply::Looked
            }
            _ => unreachable!(),
        }
    }

    /// One step of the placement at the moment `now`, in milliseconds since 1970: in the room of the member's space, a
    /// Tick in all rooms. A refused event changes nothing; only a Register may run out of memory, and then changes
    /// nothing. What the step has to record is lent by `entry`: nothing exactly if next version, greatest boots and
    /// members' hosts of each room are as before, and no room was made. Members stay in the rooms of their spaces; if no
    /// host has more than 32 types, and that of a Register neither, none has afterwards. So the table that was fixed last
    /// in a room can be built.
    pub fn step(&mut self, event: PlaceEvent, now: u64) -> PlaceReply
        ensures gives { GivesStep event now result self.old.state self.new.state }
        ensures recent { LeavesRecord event now result self.old.state self.new.recent }
        ensures durable { (self.new.recent ≡ []) ↔ SameRooms self.old.state.rooms self.new.state.rooms }
        ensures sound { IsPlacementSound self.new.state }
        ensures spaces { AreOfSpaces self.old.state.rooms → AreOfSpaces self.new.state.rooms }
        ensures types { BringsFewTypes event → AllHaveFewTypes self.old.state.rooms → AllHaveFewTypes self.new.state.rooms }
    {
        let _before = self.rooms();
        let reply = self.change(event, now);
        let _after = self.rooms();
        reply
    }

    /// The restart of each room at the moment `now`; takes no memory. Next versions, greatest boots and members are
    /// kept, each member is heard now, and a round starts in each room that ever had one and has a version left.
    pub fn restarted(&mut self, now: u64)
        ensures state { self.new.state ≡ placement_restarted self.old.state now }
        ensures recent { self.new.recent ≡ placement_restart_record self.old.state now }
        ensures sound { IsPlacementSound self.new.state }
        ensures spaces { AreOfSpaces self.old.state.rooms → AreOfSpaces self.new.state.rooms }
        ensures types { AllHaveFewTypes self.old.state.rooms → AllHaveFewTypes self.new.state.rooms }
    {
        self.rooms.restart(now);
        let _after = self.rooms();
    }

    /// An equal placement, on which a step can be tried.
    pub fn copy(&self, alloc: Global) -> Result<Placement, OutOfMemory>
        ensures same { IfOk result (λ copy. copy ≡ self.now) }
        ensures sound { IfOk result (λ copy. IsPlacementSound copy.state) }
    {
        let _rooms = self.rooms();
        let rooms = self.rooms.copy(alloc)?;
        Ok(Placement { alloc, rooms })
    }
}
