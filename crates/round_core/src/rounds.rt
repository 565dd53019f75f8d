// The members, their greatest boots, and the rounds that spread each table.
ghost use Rattle.std.specs.Prelude.{◌≡◌, ◌==◌, ◌&&◌, true, ◌+◌, ◌<◌, ◌≤◌, ◌^◌, ◌++◌, length, IfOk, OnOk, OnErr, Some, None, false, max, option_map, IsTrue, IsFalse};
ghost use Rattle.std.specs.List.{slice_get};
ghost use Rattle.member_roster.specs.Members.{is_here, is_pending, with_node, without_node, heard_at, hosts_of, boot_of, of_node, greatest_boot, Joined, is_late, late_of, removed_until, removes_all};
ghost use Rattle.round_core.specs.Room.{room_restarted, new_room, advance_round, start_round, settle_round, advance_fully, may_start, is_in_stage, is_full, with_joined, drop_late, reply_for, last_version, ack_change};
ghost use Rattle.member_roster.specs.Places.{Ascends, host_node};
ghost use Rattle.round_core.specs.Beats.{IsResting};
ghost use Rattle.round_core.specs.Records.{may_join};
ghost use Rattle.round_core.specs.Views.{with_state};

use crate::event::PlaceReply;
use crate::phase::RoundPhase;
use actor_names::{Member, Node, OutOfMemory};
use member_roster::{BootBook, MemberList, Roster};
use place_table::{AckStage, HostInfo};
use std::alloc::Global;
use std::marker::Model;

/// The next version never passes this.
pub(crate) const VERSION_LIMIT: u64 = 4611686018427387904;

/// The members, their greatest boots and the running round.
#[derive(Drop)]
pub(crate) struct Rounds {
    next_version: u64,
    boots: BootBook,
    roster: Roster,
    phase: RoundPhase,
    dirty: bool,
}

impl Model for Rounds {
    ghost use Rattle.std.specs.Prelude.{◌≤◌, ◌^◌};
    ghost use Rattle.round_core.specs.Views.{RoundState};

    ghost Value = { RoundState };

    ghost view = { λ a. record { state = record { next_version = a.next_version; boots = a.boots; members = a.roster.members; phase = a.phase; dirty = a.dirty; table = a.roster.table }; capacity = a.roster.capacity } };

    ghost invariant = { λ a. (1 ≤ a.next_version) × (a.next_version ≤ 2 ^ 62) };
}

impl Rounds {
    /// No members and no round.
    pub(crate) fn new(alloc: Global) -> Rounds
        ensures { result ≡ record { state = new_room; capacity = 0 } }
    {
        Rounds {
            next_version: 1,
            boots: BootBook::new(alloc),
            roster: Roster::new(alloc),
            phase: RoundPhase::Quiet,
            dirty: false,
        }
    }

    /// The hosts of the members.
    pub(crate) fn members(&self) -> &[HostInfo]
        ensures hosts { result.now ≡ hosts_of self.now.state.members }
        ensures order { Ascends host_node result.now }
    {
        self.roster.hosts()
    }

    /// The hosts of the table that was fixed last.
    pub(crate) fn table_hosts(&self) -> &[HostInfo]
        ensures hosts { result.now ≡ self.now.state.table }
        ensures order { Ascends host_node result.now }
    {
        self.roster.table()
    }

    /// The next version.
    pub(crate) fn next_version(&self) -> u64
        ensures version { result ≡ self.now.state.next_version }
        ensures used { 1 ≤ result }
        ensures within { result ≤ 2 ^ 62 }
    {
        self.next_version
    }

    /// Whether a round is running, and in which stage.
    pub(crate) fn phase(&self) -> RoundPhase
        ensures { result ≡ self.now.state.phase }
    {
        self.phase
    }

    /// The greatest boot of the node, 0 if the node is unknown.
    pub(crate) fn greatest(&self, node: &Node) -> u64
        ensures { result ≡ greatest_boot self.now.state.boots node.now }
    {
        self.boots.greatest(node)
    }

    /// Enters the next stage of the round, if nobody is pending.
    fn advance(&mut self)
        ensures { self.new ≡ with_state self.old (advance_round self.old.state) }
    {
        if self.roster.any_pending() {
            return;
        }
        match self.phase {
            RoundPhase::Quiet => {}
            RoundPhase::Running {
                stage: AckStage::Lock,
            } => {
                self.roster.fix();
                self.roster.enter();
                self.phase = RoundPhase::Running {
                    stage: AckStage::Update,
                };
            }
            RoundPhase::Running {
                stage: AckStage::Update,
            } => {
                self.roster.enter();
                self.phase = RoundPhase::Running {
                    stage: AckStage::Unlock,
                };
            }
            RoundPhase::Running {
                stage: AckStage::Unlock,
            } => {
                self.phase = RoundPhase::Quiet;
            }
        }
    }

    /// Advances the round as far as it goes by itself.
    fn advance_fully(&mut self)
        ensures { self.new ≡ with_state self.old (advance_fully self.old.state) }
    {
        self.advance();
        self.advance();
        self.advance();
    }

    /// Whether a round may start.
    fn may_start(&self) -> bool
        ensures { result ≡ may_start self.now.state }
    {
        match self.phase {
            RoundPhase::Quiet => self.dirty && self.next_version < VERSION_LIMIT,
            RoundPhase::Running { stage: _ } => false,
        }
    }

    /// Starts a round, if none is running and one is due.
    fn start(&mut self)
        ensures { self.new ≡ with_state self.old (start_round self.old.state) }
    {
        if !self.may_start() {
            return;
        }
        self.next_version += 1;
        self.roster.target();
        self.phase = RoundPhase::Running {
            stage: AckStage::Lock,
        };
        self.dirty = false;
    }

    /// Whether a member that is heard makes no stage go on, and no round start.
    pub(crate) fn is_resting(&self) -> bool
        ensures { IsTrue result → IsResting self.now.state }
    {
        let waits = match self.phase {
            RoundPhase::Quiet => true,
            RoundPhase::Running { stage: _ } => self.roster.any_pending(),
        };
        waits && !self.may_start()
    }

    /// Whether it is one of the members.
    pub(crate) fn is_here(&self, member: &Member) -> bool
        ensures { result ≡ is_here self.now.state.members member.now }
    {
        self.roster.is_here(member)
    }

    /// Advances the running round, and starts a new one if it is due.
    pub(crate) fn settle(&mut self)
        ensures { self.new ≡ with_state self.old (settle_round self.old.state) }
    {
        self.advance_fully();
        self.start();
        self.advance_fully();
    }

    /// Whether the member of this member's node is pending.
    pub(crate) fn is_pending(&self, member: &Member) -> bool
        ensures { result ≡ is_pending self.now.state.members member.now }
    {
        self.roster.is_pending(member)
    }

    /// What a member is told.
    pub(crate) fn reply_for(&self, member: &Member) -> PlaceReply
        ensures { result ≡ reply_for self.now.state member.now }
    {
        if !self.roster.is_pending(member) {
            return PlaceReply::Idle;
        }
        let version = self.next_version - 1;
        match self.phase {
            RoundPhase::Quiet => PlaceReply::Idle,
            RoundPhase::Running {
                stage: AckStage::Lock,
            } => PlaceReply::Lock { version },
            RoundPhase::Running {
                stage: AckStage::Update,
            } => PlaceReply::Update { version },
            RoundPhase::Running {
                stage: AckStage::Unlock,
            } => PlaceReply::Unlock { version },
        }
    }

    /// Records that the member is heard now, if it is one; says whether it is.
    pub(crate) fn hear(&mut self, member: &Member, now: u64) -> bool
        ensures here { result ≡ is_here self.old.state.members member.now }
        ensures heard { IsTrue result → self.new ≡ with_state self.old (record self.old.state { members = with_node self.old.state.members member.now.node (heard_at now) }) }
        ensures stranger { IsFalse result → self.new ≡ self.old }
    {
        self.roster.hear(member, now)
    }

    /// Whether the running round is in this stage at this version.
    fn is_running(&self, stage: AckStage, version: u64) -> bool
        ensures { result ≡ (is_in_stage self.now.state.phase stage && (version == last_version self.now.state)) }
    {
        match self.phase {
            RoundPhase::Quiet => false,
            RoundPhase::Running { stage: running } => {
                running == stage && version == self.next_version - 1
            }
        }
    }

    /// Records the member's acknowledgement, if it is one; says whether it is.
    pub(crate) fn ack(&mut self, member: &Member, stage: AckStage, version: u64, now: u64) -> bool
        ensures here { result ≡ is_here self.old.state.members member.now }
        ensures acked { IsTrue result → self.new ≡ with_state self.old (record self.old.state { members = with_node self.old.state.members member.now.node (ack_change self.old.state stage version now) }) }
        ensures stranger { IsFalse result → self.new ≡ self.old }
    {
        if self.is_running(stage, version) {
            self.roster.ack(member, now)
        } else {
            self.roster.hear(member, now)
        }
    }

    /// Removes the member, if it is one; says whether it was.
    pub(crate) fn remove(&mut self, member: &Member) -> bool
        ensures here { result ≡ is_here self.old.state.members member.now }
        ensures removed { IsTrue result → self.new ≡ with_state self.old (record self.old.state { members = without_node self.old.state.members member.now.node; dirty = true }) }
        ensures stranger { IsFalse result → self.new ≡ self.old }
    {
        if !self.roster.remove(member) {
            return false;
        }
        self.dirty = true;
        true
    }

    /// The boot of the member of this node, if there is one.
    pub(crate) fn boot_at(&self, node: &Node) -> Option<u64>
        ensures { result ≡ option_map boot_of (of_node self.now.state.members node.now) }
    {
        self.roster.boot_at(node)
    }

    /// How many members there are.
    pub(crate) fn len(&self) -> u32
        ensures count { result ≡ length self.now.state.members }
        ensures within { result ≤ 256 }
        ensures capacity { result ≤ self.now.capacity }
    {
        self.roster.len()
    }

    /// How many nodes are known.
    pub(crate) fn nodes(&self) -> u32
        ensures { result ≡ length self.now.state.boots }
    {
        self.boots.len()
    }

    /// Whether no member of this node may join because all places are taken.
    pub(crate) fn is_full(&self, node: &Node) -> bool
        ensures { result ≡ is_full self.now.state node.now }
    {
        self.roster.len() >= 256 || (!self.boots.knows(node) && self.boots.len() >= 65536)
    }

    /// Whether a host may join: its node has no member, its boot is above the greatest one, and there is a place.
    pub(crate) fn may_join(&self, host: &HostInfo) -> bool
        ensures { result ≡ may_join self.now.state host.now }
    {
        let node = &host.member.node;
        self.boot_at(node).is_none()
            && self.greatest(node) < host.member.boot
            && !self.is_full(node)
    }

    /// Removes members in their order up to the first that isn't one, and says whether each was one. This makes no new
    /// round due.
    pub(crate) fn remove_all(&mut self, members: &[Member]) -> bool
        ensures all { IsTrue result → removes_all self.old.state.members members.now ≡ Some self.new.state.members }
        ensures stranger { IsFalse result → removes_all self.old.state.members members.now ≡ None }
        ensures rest { self.new ≡ with_state self.old (record self.old.state { members = removed_until self.old.state.members members.now }) }
    {
        self.roster.remove_all(members)
    }

    /// Sets the next version.
    pub(crate) fn set_version(&mut self, version: u64)
        requires used { 1 ≤ version }
        requires within { version ≤ 2 ^ 62 }
        ensures { self.new ≡ with_state self.old (record self.old.state { next_version = version }) }
    {
        self.next_version = version;
    }

    /// How many members there is room for.
    pub(crate) fn capacity(&self) -> usize
        ensures { result ≡ self.now.capacity }
    {
        self.roster.capacity()
    }

    /// Makes room for one more member.
    pub(crate) fn reserve(&mut self) -> Result<(), OutOfMemory>
        ensures state { self.new.state ≡ self.old.state }
        ensures capacity { self.old.capacity ≤ self.new.capacity }
        ensures ok { OnOk result (length self.old.state.members < self.new.capacity) }
        ensures most { self.new.capacity ≤ max self.old.capacity (length self.old.state.members + 1) }
    {
        self.roster.reserve()?;
        Ok(())
    }

    /// Adds a host, for which there is room; `spare` is a copy of it.
    pub(crate) fn join(
        &mut self,
        host: HostInfo,
        spare: HostInfo,
        now: u64,
    ) -> Result<(), OutOfMemory>
        requires capacity { length self.old.state.members < self.old.capacity }
        requires places { is_full self.old.state host.member.node ≡ false }
        requires free { of_node self.old.state.members host.member.node ≡ None }
        requires copy { spare ≡ host }
        ensures ok { OnOk result (self.new ≡ with_state self.old (with_joined self.old.state host now)) }
        ensures err { OnErr result (self.new ≡ self.old) }
    {
        self.boots.put(host.member)?;
        self.roster.join(host, spare, now);
        self.dirty = true;
        Ok(())
    }

    /// Whether the member at this index was not heard for 10,000 milliseconds or more.
    pub(crate) fn is_late(&self, at: usize, now: u64) -> bool
        requires { at < length self.now.state.members }
        ensures { (j : Joined) → slice_get self.now.state.members at ≡ Some j → result ≡ is_late now j }
    {
        self.roster.is_late(at, now)
    }

    /// Drops each member that was not heard for 10,000 milliseconds or more, adds it to `removed`, and counts them.
    pub(crate) fn drop_late(&mut self, removed: &mut MemberList, now: u64) -> u32
        requires { length removed.old.members + length self.old.state.members ≤ removed.old.capacity }
        ensures state { self.new ≡ with_state self.old (drop_late self.old.state now).state }
        ensures late { removed.new.members ≡ removed.old.members ++ late_of self.old.state.members now }
        ensures count { result ≡ length (late_of self.old.state.members now) }
        ensures capacity { removed.old.capacity ≤ removed.new.capacity }
    {
        let before = self.roster.len();
        self.roster.drop_late(removed, now);
        let dropped = before - self.roster.len();
        if dropped > 0 {
            self.dirty = true;
        }
        dropped
    }

    /// The restart; if no round has ever started, it is the opening state.
    pub(crate) fn restart(&mut self, now: u64)
        ensures { self.new ≡ with_state self.old (room_restarted self.old.state now) }
    {
        if self.next_version == 1 {
            self.roster.clear();
            self.boots.clear();
            self.phase = RoundPhase::Quiet;
            self.dirty = false;
        } else {
            self.roster.restart(now);
            self.phase = RoundPhase::Quiet;
            self.dirty = true;
            self.settle();
        }
    }
    /// Equal rounds, with the same room.
    pub(crate) fn copy(&self, alloc: Global) -> Result<Rounds, OutOfMemory>
        ensures { IfOk result (λ copy. copy ≡ self.now) }
    {
        let boots = self.boots.copy()?;
        let roster = self.roster.copy(alloc)?;
        Ok(Rounds {
            next_version: self.next_version,
            boots,
            roster,
            phase: self.phase,
            dirty: self.dirty,
        })
    }
}
