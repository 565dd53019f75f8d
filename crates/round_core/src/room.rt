// One room of a placement: one step at a time, with the record of each.
ghost use Rattle.std.specs.Prelude.{◌≡◌, ◌↔◌, ◌==◌, ◌||◌, ◌+◌, ◌<◌, ◌≤◌, List, not, nat_lt, is_some, false, [], Some, None, map, IfOk, IfErr, IfSome, OnOk, OnErr, ℕ, length, option_map};
ghost use Rattle.std.specs.Option.{option_copied};
ghost use Rattle.std.specs.declared.result.Result.TheVariants.{Ok};
ghost use Rattle.std.specs.List.{slice_get};
ghost use Rattle.member_roster.specs.Members.{hosts_of, of_node, Joined, is_late};
ghost use Rattle.round_core.specs.Room.{room_restarted, new_room, last_version, settle_round, is_full, with_joined, SameDurableState};
ghost use Rattle.member_roster.specs.Places.{Ascends, host_node};
ghost use Rattle.round_core.specs.Records.{record_of, restart_record, room_restored, restored_record, IsBadAt};
ghost use Rattle.round_core.specs.Beats.{IsQuietBeat};
ghost use Rattle.round_core.specs.Runs.{RunEvent, ForgetsNothing, run_state, run_records};
ghost use Rattle.round_core.specs.Sound.{BringsFewTypes, HaveFewTypes, IsRoomSound};
ghost use Rattle.round_core.specs.declared.restore.RestoreError.TheVariants.{OutOfMemory as out_of_memory};
ghost use Rattle.round_core.specs.Views.{with_state, Gives, GivesInMemory, GivesStep};

use crate::admission::admit;
use crate::event::{PlaceEvent, PlaceReply};
use crate::phase::RoundPhase;
use crate::record::RoomRecord;
use crate::replay::RoomReplay;
use crate::restore::{RestoreError, apply_records};
use crate::rounds::Rounds;
use actor_names::{Member, OutOfMemory};
use member_roster::{MemberList, copy_option};
use place_table::{AckStage, HostInfo};
use std::alloc::Global;
use std::marker::Model;

/// The members of a cluster, the running round, and the record of the last step.
#[derive(Drop)]
pub struct Room {
    alloc: Global,
    rounds: Rounds,
    record: RoomRecord,
    recorded: bool,
}

impl Model for Room {
    ghost use Rattle.std.specs.Prelude.{◌≤◌, if◌then◌else◌, Some, None};
    ghost use Rattle.round_core.specs.Openings.{IsNewOrUsed};
    ghost use Rattle.round_core.specs.Records.{record_of};
    ghost use Rattle.round_core.specs.Sound.{IsRoomSound};
    ghost use Rattle.round_core.specs.Views.{RoomView};

    ghost Value = { RoomView };

    ghost view = { λ a. record { state = a.rounds.state; recent = if a.recorded then Some (record_of a.record) else None } };

    ghost invariant = { λ a. (a.rounds.capacity ≤ a.record.removed.capacity) × IsNewOrUsed a.rounds.state × IsRoomSound a.rounds.state };
}

/// An empty record.
fn new_record(alloc: Global) -> RoomRecord
    ensures joined { result.joined ≡ None }
    ensures removed { result.removed.members ≡ [] }
{
    RoomRecord {
        joined: None,
        removed: MemberList::from_vec(Vec::new(alloc)),
        next_version: 1,
    }
}

/// Empties the record: nobody joined or was removed.
fn clear_record(record_: &mut RoomRecord)
    ensures { record_.new ≡ record record_.old { joined = None; removed = record { members = []; capacity = record_.old.removed.capacity } } }
{
    record_.joined = None;
    record_.removed.clear();
}

/// Lets rounds go on; says whether anything has to be on the disk afterwards.
fn go_on(rounds: &mut Rounds, record_: &mut RoomRecord) -> bool
    ensures rounds { rounds.new ≡ with_state rounds.old (settle_round rounds.old.state) }
    ensures noted { record_.new ≡ record record_.old { next_version = (settle_round rounds.old.state).next_version } }
    ensures changed { result ≡ (is_some record_.old.joined || (nat_lt 0 (length record_.old.removed.members) || not ((settle_round rounds.old.state).next_version == rounds.old.state.next_version))) }
{
    let before = rounds.next_version();
    rounds.settle();
    let after = rounds.next_version();
    record_.next_version = after;
    record_.joined.is_some() || record_.removed.as_slice().len() > 0 || !(after == before)
}

/// Restarts the rounds; says whether that has to be on the disk.
fn restart(rounds: &mut Rounds, record_: &mut RoomRecord, now: u64) -> bool
    ensures rounds { rounds.new ≡ with_state rounds.old (room_restarted rounds.old.state now) }
    ensures noted { record_.new ≡ record record_.old { next_version = (room_restarted rounds.old.state now).next_version } }
    ensures changed { result ≡ not ((room_restarted rounds.old.state now).next_version == rounds.old.state.next_version) }
    ensures used { 1 ≤ rounds.old.state.next_version }
{
    let before = rounds.next_version();
    rounds.restart(now);
    let after = rounds.next_version();
    record_.next_version = after;
    !(after == before)
}

/// Adds a host, and notes it in the record.
fn join(
    alloc: Global,
    rounds: &mut Rounds,
    record_: &mut RoomRecord,
    host: HostInfo,
    now: u64,
) -> Result<(), OutOfMemory>
    requires capacity { rounds.old.capacity ≤ record_.old.removed.capacity }
    requires places { is_full rounds.old.state host.member.node ≡ false }
    requires free { of_node rounds.old.state.members host.member.node ≡ None }
    ensures ok { OnOk result ((rounds.new.state ≡ with_joined rounds.old.state host now) × (record_.new.joined ≡ Some host)) }
    ensures err { OnErr result (rounds.new.state ≡ rounds.old.state) }
    ensures removed { record_.new.removed.members ≡ record_.old.removed.members }
    ensures capacity { rounds.new.capacity ≤ record_.new.removed.capacity }
{
    let shown = host.copy(alloc)?;
    admit(alloc, rounds, &mut record_.removed, host, now)?;
    record_.joined = Some(shown);
    Ok(())
}

impl Room {
    /// The opening state: the next version is 1, there are no members and no round. It takes no memory.
    pub fn new(alloc: Global) -> Room
        ensures opening { result ≡ record { state = new_room; recent = None } }
        ensures sound { IsRoomSound result.state }
    {
        Room {
            alloc,
            rounds: Rounds::new(alloc),
            record: new_record(alloc),
            recorded: false,
        }
    }

    /// The restart, at the moment `now`, of the state after these records; without records it is the opening state.
    /// For the records of a run, in their order, this is the restart of the state at the run's end.
    pub fn restore(alloc: Global, records: &[RoomRecord], now: u64) -> Result<Room, RestoreError>
        ensures restored { IfOk result (λ room. room_restored (map record_of records.now) now ≡ Ok room.state) }
        ensures recent { IfOk result (λ room. restored_record (map record_of records.now) now ≡ room.recent) }
        ensures sound { IfOk result (λ room. IsRoomSound room.state) }
        ensures bad { IfErr result (λ e. IsBadAt e (room_restored (map record_of records.now) now)) }
        ensures run { IfOk result (λ room. (run : List RunEvent) → map record_of records.now ≡ run_records new_room run → room.state ≡ room_restarted (run_state new_room run) now) }
        ensures run_is_good { IfErr result (λ e. (run : List RunEvent) → map record_of records.now ≡ run_records new_room run → e ≡ out_of_memory) }
    {
        let mut rounds = Rounds::new(alloc);
        let mut record_ = new_record(alloc);
        match apply_records(alloc, &mut rounds, &mut record_.removed, records) {
            Err(error) => Err(error),
            Ok(()) => {
                clear_record(&mut record_);
                let recorded = restart(&mut rounds, &mut record_, now);
                Ok(Room {
                    alloc,
                    rounds,
                    record: record_,
                    recorded,
                })
            }
        }
    }

    /// The restart, at the moment `now`, of a room that was read from its records; takes no memory.
    pub fn from_replay(replay: RoomReplay, now: u64) -> Room
        ensures state { result.state ≡ room_restarted replay now }
        ensures recent { result.recent ≡ restart_record replay now }
        ensures sound { IsRoomSound result.state }
    {
        let (alloc, mut rounds, removed) = replay.into_parts();
        let mut record_ = RoomRecord {
            joined: None,
            removed,
            next_version: 1,
        };
        clear_record(&mut record_);
        let recorded = restart(&mut rounds, &mut record_, now);
        Room {
            alloc,
            rounds,
            record: record_,
            recorded,
        }
    }

    /// The hosts of the table that was fixed last, in byte order of node; none before the first table, also
    /// after a restart.
    pub fn table_hosts(&self) -> &[HostInfo]
        ensures hosts { result.now ≡ self.now.state.table }
        ensures order { Ascends host_node result.now }
    {
        self.rounds.table_hosts()
    }

    /// The members' hosts, in byte order of node.
    pub fn members(&self) -> &[HostInfo]
        ensures hosts { result.now ≡ hosts_of self.now.state.members }
        ensures order { Ascends host_node result.now }
    {
        self.rounds.members()
    }

    /// How many members there are, at most 256. The clause `sound` holds of every room.
    pub fn len(&self) -> u32
        ensures count { result ≡ length self.now.state.members }
        ensures within { result ≤ 256 }
        ensures sound { IsRoomSound self.now.state }
    {
        self.rounds.len()
    }

    /// Whether the member at this index of `members` was not heard for 10,000 milliseconds or more at the moment `now`.
    /// These are the members that a Tick at that moment drops.
    pub fn is_late(&self, at: usize, now: u64) -> bool
        requires { at < length self.now.state.members }
        ensures { (j : Joined) → slice_get self.now.state.members at ≡ Some j → result ≡ is_late now j }
    {
        self.rounds.is_late(at, now)
    }

    /// Whether a round is running, and in which stage. Its version is the last one used.
    pub fn phase(&self) -> RoundPhase
        ensures { result ≡ self.now.state.phase }
    {
        self.rounds.phase()
    }

    /// Whether the running round waits for the member at this index of `members`: it hasn't acknowledged the stage.
    pub fn is_pending(&self, at: usize) -> bool
        requires { at < length self.now.state.members }
        ensures { (j : Joined) → slice_get self.now.state.members at ≡ Some j → result ≡ j.pending }
    {
        self.rounds.is_pending(&self.rounds.members()[at].member)
    }

    /// The last version used, 0 before the first round.
    pub fn last_version(&self) -> u64
        ensures { result ≡ last_version self.now.state }
    {
        self.rounds.next_version() - 1
    }

    /// What a Beat of this member is answered, if it changes nothing but the moment at which the member was heard,
    /// whenever it comes. None if more may change, or if it is no member.
    pub fn beat_reply(&self, member: &Member) -> Option<PlaceReply>
        ensures { IfSome result (λ reply. IsQuietBeat self.now.state member.now reply) }
    {
        if self.rounds.is_here(member) && self.rounds.is_resting() {
            Some(self.rounds.reply_for(member))
        } else {
            None
        }
    }

    /// The part of the last step that has to be on the disk before its reply goes out, if any; lending it takes no
    /// memory.
    pub fn record(&self) -> Option<&RoomRecord>
        ensures { option_map record_of (option_copied result) ≡ self.now.recent }
    {
        if self.recorded {
            Some(&self.record)
        } else {
            None
        }
    }

    /// An equal room, on which a step can be tried.
    pub fn copy(&self, alloc: Global) -> Result<Room, OutOfMemory>
        ensures same { IfOk result (λ copy. copy ≡ self.now) }
        ensures sound { IfOk result (λ copy. IsRoomSound copy.state) }
    {
        let rounds = self.rounds.copy(alloc)?;
        let joined = copy_option(alloc, &self.record.joined)?;
        let removed = self.record.removed.copy(alloc)?;
        Ok(Room {
            alloc,
            rounds,
            record: RoomRecord {
                joined,
                removed,
                next_version: self.record.next_version,
            },
            recorded: self.recorded,
        })
    }

    /// A member is heard.
    fn beat(&mut self, member: Member, now: u64) -> PlaceReply
        ensures { Gives (PlaceEvent.Beat member) now result self.old self.new }
    {
        clear_record(&mut self.record);
        if !self.rounds.hear(&member, now) {
            self.recorded = false;
            return PlaceReply::NotMember {
                greatest: self.rounds.greatest(&member.node),
            };
        }
        self.recorded = go_on(&mut self.rounds, &mut self.record);
        self.rounds.reply_for(&member)
    }

    /// A member acknowledges.
    fn ack(&mut self, member: Member, stage: AckStage, version: u64, now: u64) -> PlaceReply
        ensures { Gives (PlaceEvent.Ack member stage version) now result self.old self.new }
    {
        clear_record(&mut self.record);
        if !self.rounds.ack(&member, stage, version, now) {
            self.recorded = false;
            return PlaceReply::NotMember {
                greatest: self.rounds.greatest(&member.node),
            };
        }
        self.recorded = go_on(&mut self.rounds, &mut self.record);
        self.rounds.reply_for(&member)
    }

    /// Time has passed.
    fn tick(&mut self, now: u64) -> PlaceReply
        ensures { Gives PlaceEvent.Tick now result self.old self.new }
    {
        clear_record(&mut self.record);
        let _members = self.rounds.len();
        let dropped = self.rounds.drop_late(&mut self.record.removed, now);
        self.recorded = go_on(&mut self.rounds, &mut self.record);
        PlaceReply::Ticked { dropped }
    }

    /// Somebody looks at the members.
    fn look(&mut self) -> PlaceReply
        ensures { (now : ℕ) → Gives PlaceEvent.Look now result self.old self.new }
    {
        clear_record(&mut self.record);
        self.recorded = false;
        PlaceReply::Looked
    }

    /// A member leaves or was lost.
    fn remove(&mut self, member: Member) -> PlaceReply
        ensures leave { (now : ℕ) → Gives (PlaceEvent.Leave member) now result self.old self.new }
        ensures lost { (now : ℕ) → Gives (PlaceEvent.Lost member) now result self.old self.new }
    {
        clear_record(&mut self.record);
        let _members = self.rounds.len();
        if !self.rounds.remove(&member) {
            self.recorded = false;
            return PlaceReply::NotMember {
                greatest: self.rounds.greatest(&member.node),
            };
        }
        self.record.removed.push_reserved(member);
        self.recorded = go_on(&mut self.rounds, &mut self.record);
        PlaceReply::Gone
    }

    /// A host asks to join, or is heard again.
    fn register(&mut self, host: HostInfo, now: u64) -> PlaceReply
        ensures { GivesInMemory (PlaceEvent.Register host) now result self.old self.new }
    {
        let member = host.member;
        clear_record(&mut self.record);
        if self.rounds.hear(&member, now) {
            self.recorded = go_on(&mut self.rounds, &mut self.record);
            return self.rounds.reply_for(&member);
        }
        self.recorded = false;
        let greatest = self.rounds.greatest(&member.node);
        if member.boot <= greatest {
            return PlaceReply::StaleBoot { greatest };
        }
        if let Some(boot) = self.rounds.boot_at(&member.node) {
            return PlaceReply::NodeBusy { boot };
        }
        if self.rounds.is_full(&member.node) {
            return PlaceReply::Full {
                members: self.rounds.len(),
                nodes: self.rounds.nodes(),
            };
        }
        match join(self.alloc, &mut self.rounds, &mut self.record, host, now) {
            Err(_) => PlaceReply::OutOfMemory,
            Ok(()) => {
                self.recorded = go_on(&mut self.rounds, &mut self.record);
                self.rounds.reply_for(&member)
            }
        }
    }

    /// One step of the room at the moment `now`, in milliseconds since 1970. A refused event changes nothing;
    /// only a Register may run out of memory. There is no record exactly if the next version, the greatest boots
    /// and the members' hosts are as before. If no host has more than 32 types, and that of a Register neither, none
    /// has afterwards, so the table that was fixed last can be built if its hosts are of one space.
    pub fn step(&mut self, event: PlaceEvent, now: u64) -> PlaceReply
        ensures gives { GivesStep event now result self.old self.new }
        ensures sound { IsRoomSound self.new.state }
        ensures types { BringsFewTypes event → HaveFewTypes self.old.state → HaveFewTypes self.new.state }
        ensures durable { self.new.recent ≡ None ↔ SameDurableState self.old.state self.new.state }
        ensures remembers { ForgetsNothing self.old.state self.new.state }
    {
        let _members = self.len();
        match event {
            PlaceEvent::Register { host } => self.register(host, now),
            PlaceEvent::Beat { member } => self.beat(member, now),
            PlaceEvent::Ack {
                member,
                stage,
                version,
            } => self.ack(member, stage, version, now),
            PlaceEvent::Leave { member } => self.remove(member),
            PlaceEvent::Lost { member } => self.remove(member),
            PlaceEvent::Tick => self.tick(now),
            PlaceEvent::Look => self.look(),
        }
    }

    /// The restart at the moment `now`; takes no memory. The next version, the greatest boots and the members are kept,
    /// each member is heard now, and a round starts if a version is left. If no round has ever started, the restart is
    /// the opening state.
    pub fn restarted(&mut self, now: u64)
        ensures state { self.new.state ≡ room_restarted self.old.state now }
        ensures recent { self.new.recent ≡ restart_record self.old.state now }
        ensures sound { IsRoomSound self.new.state }
        ensures types { HaveFewTypes self.old.state → HaveFewTypes self.new.state }
        ensures remembers { ForgetsNothing self.old.state self.new.state }
    {
        clear_record(&mut self.record);
        self.recorded = restart(&mut self.rounds, &mut self.record, now);
    }
}
