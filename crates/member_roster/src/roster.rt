// The members and the table that was fixed last.
ghost use Rattle.std.specs.Prelude.{◌≡◌, ◌==◌, ◌+◌, ◌<◌, ◌≤◌, ◌↔◌, [], ◌∷◌, ◌++◌, None, false, length, map, IfOk, IfSome, OnOk, OnErr, IsTrue, IsFalse, List, Ok, Some, is_some, max, option_map};
ghost use Rattle.member_roster.specs.Members.{heard_at, acked_at, restarted_at, new_joined, boot_of, hosts_of, of_node, is_here, is_pending, with_node, without_node, put_joined, Joined, is_late, late_of, heard_of, any_pending, entered, targeted, target_hosts, removed_until, removes_all};
ghost use Rattle.std.specs.List.{slice_get};
ghost use Rattle.actor_names.specs.Same.{same_member};
ghost use Rattle.member_roster.specs.Places.{Ascends, host_node, place_by};
ghost use Rattle.member_roster.specs.Roster.{RosterState, SameButCapacity, joined_all};
ghost use Rattle.member_roster.specs.declared.marks.Mark.{Mark};

use crate::copies::{fix_table, give_back_all};
use crate::copying::{copy_hosts, copy_marks, copy_spares};
use crate::late::{drop_late, is_mark_late};
use crate::list::MemberList;
use crate::marks::{Mark, count_pending, enter_marks, restart_marks, target_marks, weigh_mark};
use crate::reserved::insert_reserved;
use crate::search::{host_place, host_place_near};
use actor_names::{Member, Node, OutOfMemory};
use place_table::HostInfo;
use std::alloc::Global;
use std::marker::Model;

/// The members in byte order of node, at most 256, and the table that was fixed last. Each member's host has a second
/// copy, which is spare or in the table. The pending members are counted, and the place of the member that was heard
/// last is kept, since it is looked up again.
#[derive(Drop)]
pub struct Roster {
    hosts: Vec<HostInfo>,
    marks: Vec<Mark>,
    spares: Vec<Option<HostInfo>>,
    table: Vec<HostInfo>,
    capacity: usize,
    pending: usize,
    near: usize,
}

impl Model for Roster {
    ghost use Rattle.std.specs.Prelude.{vec_capacity};
    ghost use Rattle.member_roster.specs.Roster.{RosterState, joined_all, IsRosterKept, HasCapacity};

    ghost Value = { RosterState };

    ghost view = { λ a. record { members = joined_all a.hosts.items a.marks.items; table = a.table.items; capacity = a.capacity } };

    ghost invariant = { λ a. IsRosterKept a.hosts.items a.marks.items a.spares.items a.table.items a.capacity a.pending × HasCapacity a.capacity (vec_capacity a.hosts) (vec_capacity a.marks) (vec_capacity a.spares) (vec_capacity a.table) };
}

/// Whether the host is the member's.
fn is_member(host: &HostInfo, member: &Member) -> bool
    ensures { result ≡ same_member member.now host.now.member }
{
    host.member == *member
}

/// The index of the member's host, if it is one of the members.
fn member_place(hosts: &[HostInfo], member: &Member) -> Option<usize>
    requires { Ascends host_node hosts.now }
    ensures place { IfSome result (λ at. place_by host_node member.now.node hosts.now ≡ Ok at) }
    ensures within { IfSome result (λ at. at < length hosts.now) }
    ensures here { (ms : List Mark) → length ms ≡ length hosts.now → is_some result ≡ is_here (joined_all hosts.now ms) member.now }
{
    match host_place(hosts, &member.node) {
        Ok(at) => {
            if !is_member(&hosts[at], member) {
                return None;
            }
            Some(at)
        }
        Err(_) => None,
    }
}

impl Roster {
    /// An empty roster with no table.
    pub fn new(alloc: Global) -> Roster
        ensures { result ≡ record { members = []; table = []; capacity = 0 } }
    {
        Roster {
            hosts: Vec::new(alloc),
            marks: Vec::new(alloc),
            spares: Vec::new(alloc),
            table: Vec::new(alloc),
            capacity: 0,
            pending: 0,
            near: 0,
        }
    }

    /// The members' hosts, in byte order of node.
    pub fn hosts(&self) -> &[HostInfo]
        ensures hosts { result.now ≡ hosts_of self.now.members }
        ensures order { Ascends host_node result.now }
    {
        self.hosts.as_slice()
    }

    /// The hosts of the table that was fixed last.
    pub fn table(&self) -> &[HostInfo]
        ensures hosts { result.now ≡ self.now.table }
        ensures order { Ascends host_node result.now }
    {
        self.table.as_slice()
    }

    /// How many members there are.
    pub fn len(&self) -> u32
        ensures count { result ≡ length self.now.members }
        ensures within { result ≤ 256 }
        ensures capacity { result ≤ self.now.capacity }
    {
        self.hosts.len() as u32
    }

    /// How many members there is room for.
    pub fn capacity(&self) -> usize
        ensures { result ≡ self.now.capacity }
    {
        self.capacity
    }

    /// The boot of the member of this node, if there is one.
    pub fn boot_at(&self, node: &Node) -> Option<u64>
        ensures { result ≡ option_map boot_of (of_node self.now.members node.now) }
    {
        match host_place(&self.hosts, node) {
            Ok(at) => Some(self.hosts[at].member.boot),
            Err(_) => None,
        }
    }

    /// Whether it is one of the members.
    pub fn is_here(&self, member: &Member) -> bool
        ensures { result ≡ is_here self.now.members member.now }
    {
        member_place(&self.hosts, member).is_some()
    }

    /// Whether the member of this member's node is pending, in whichever boot.
    pub fn is_pending(&self, member: &Member) -> bool
        ensures { result ≡ is_pending self.now.members member.now }
    {
        if self.pending == 0 {
            return false;
        }
        match host_place_near(&self.hosts, &member.node, self.near) {
            Ok(at) => self.marks[at].pending,
            Err(_) => false,
        }
    }

    /// Whether any member is pending.
    pub fn any_pending(&self) -> bool
        ensures { result ≡ any_pending self.now.members }
    {
        self.pending > 0
    }

    /// Records that the member is heard now, if it is one; says whether it is.
    pub fn hear(&mut self, member: &Member, now: u64) -> bool
        ensures here { result ≡ is_here self.old.members member.now }
        ensures heard { IsTrue result → self.new ≡ record self.old { members = with_node self.old.members member.now.node (heard_at now) } }
        ensures stranger { IsFalse result → self.new ≡ self.old }
    {
        match member_place(&self.hosts, member) {
            Some(at) => {
                let mark = &mut self.marks[at];
                mark.heard = now;
                self.near = at;
                true
            }
            None => false,
        }
    }

    /// Records that the member is heard now and is no longer pending, if it is one; says whether it is.
    pub fn ack(&mut self, member: &Member, now: u64) -> bool
        ensures here { result ≡ is_here self.old.members member.now }
        ensures acked { IsTrue result → self.new ≡ record self.old { members = with_node self.old.members member.now.node (acked_at now) } }
        ensures stranger { IsFalse result → self.new ≡ self.old }
    {
        match member_place(&self.hosts, member) {
            Some(at) => {
                let weight = weigh_mark(self.marks[at]);
                let mark = &mut self.marks[at];
                mark.heard = now;
                mark.pending = false;
                self.pending -= weight;
                self.near = at;
                true
            }
            None => false,
        }
    }

    /// Makes room for one more member.
    pub fn reserve(&mut self) -> Result<(), OutOfMemory>
        ensures same { SameButCapacity self.old self.new }
        ensures capacity { OnOk result (length self.old.members < self.new.capacity) }
        ensures most { self.new.capacity ≤ max self.old.capacity (length self.old.members + 1) }
    {
        let wanted = self.hosts.len() + 1;
        if wanted <= self.capacity {
            return Ok(());
        }
        self.hosts.reserve(1)?;
        self.marks.reserve(1)?;
        self.spares.reserve(1)?;
        self.table.reserve(wanted.saturating_sub(self.table.len()))?;
        self.capacity = wanted;
        Ok(())
    }

    /// Adds a host whose node has no member; `spare` is a copy of it.
    pub fn join(&mut self, host: HostInfo, spare: HostInfo, now: u64)
        requires capacity { length self.old.members < self.old.capacity }
        requires few { length self.old.members < 256 }
        requires free { of_node self.old.members host.member.node ≡ None }
        requires copy { spare ≡ host }
        ensures { self.new ≡ record self.old { members = put_joined self.old.members (new_joined host now) } }
    {
        match host_place(&self.hosts, &host.member.node) {
            Ok(_) => unreachable!(),
            Err(at) => {
                insert_reserved(&mut self.hosts, at, host);
                let mark = Mark {
                    heard: now,
                    target: false,
                    pending: false,
                };
                insert_reserved(&mut self.marks, at, mark);
                insert_reserved(&mut self.spares, at, Some(spare));
            }
        }
    }

    /// Removes the member, if it is one; says whether it was.
    pub fn remove(&mut self, member: &Member) -> bool
        ensures here { result ≡ is_here self.old.members member.now }
        ensures removed { IsTrue result → self.new ≡ record self.old { members = without_node self.old.members member.now.node } }
        ensures stranger { IsFalse result → self.new ≡ self.old }
    {
        match member_place(&self.hosts, member) {
            Some(at) => {
                let _host = self.hosts.remove(at);
                let mark = self.marks.remove(at);
                let _spare = self.spares.remove(at);
                let weight = weigh_mark(mark);
                self.pending -= weight;
                true
            }
            None => false,
        }
    }

    /// Removes members in their order up to the first that isn't one, and says whether each was one.
    pub fn remove_all(&mut self, members: &[Member]) -> bool
        ensures all { IsTrue result → removes_all self.old.members members.now ≡ Some self.new.members }
        ensures stranger { IsFalse result → removes_all self.old.members members.now ≡ None }
        ensures members { self.new.members ≡ removed_until self.old.members members.now }
        ensures table { self.new.table ≡ self.old.table }
        ensures capacity { self.new.capacity ≡ self.old.capacity }
    {
        for i in 0..members.len() {
            if !self.remove(&members[i]) {
                return false;
            }
        }
        true
    }

    /// Fixes the table of the targets.
    pub fn fix(&mut self)
        ensures { self.new ≡ record self.old { table = target_hosts self.old.members } }
    {
        fix_table(&self.hosts, &self.marks, &mut self.spares, &mut self.table);
    }

    /// A round enters a stage: the targets are pending.
    pub fn enter(&mut self)
        ensures { self.new ≡ record self.old { members = map entered self.old.members } }
    {
        let pending = enter_marks(&mut self.marks);
        self.pending = pending;
    }

    /// A round starts: each member is a target, and pending.
    pub fn target(&mut self)
        ensures { self.new ≡ record self.old { members = map targeted self.old.members } }
    {
        target_marks(&mut self.marks);
        let pending = self.marks.len();
        self.pending = pending;
    }

    /// Whether the member at this index, from 0 in byte order of node, was not heard for 10,000 milliseconds or more.
    /// These are the members that `drop_late` drops.
    pub fn is_late(&self, at: usize, now: u64) -> bool
        requires { at < length self.now.members }
        ensures { (j : Joined) → slice_get self.now.members at ≡ Some j → result ≡ is_late now j }
    {
        is_mark_late(self.marks[at], now)
    }

    /// Drops each member that was not heard for 10,000 milliseconds or more, and adds it to `removed`.
    pub fn drop_late(&mut self, removed: &mut MemberList, now: u64)
        requires { length removed.old.members + length self.old.members ≤ removed.old.capacity }
        ensures members { self.new ≡ record self.old { members = heard_of self.old.members now } }
        ensures late { removed.new.members ≡ removed.old.members ++ late_of self.old.members now }
        ensures capacity { removed.old.capacity ≤ removed.new.capacity }
    {
        drop_late(
            &mut self.hosts,
            &mut self.marks,
            &mut self.spares,
            removed,
            now,
        );
        let pending = count_pending(&self.marks);
        self.pending = pending;
    }

    /// A restart: each member is heard now, and there is no round and no table.
    pub fn restart(&mut self, now: u64)
        ensures { self.new ≡ record self.old { members = map (restarted_at now) self.old.members; table = [] } }
    {
        give_back_all(&self.hosts, &mut self.spares, &mut self.table);
        restart_marks(&mut self.marks, now);
        self.pending = 0;
    }

    /// Removes all members and the table.
    pub fn clear(&mut self)
        ensures { self.new ≡ record self.old { members = []; table = [] } }
    {
        self.hosts.clear();
        self.marks.clear();
        self.spares.clear();
        self.table.clear();
        self.pending = 0;
    }
    /// An equal roster, with the same room.
    pub fn copy(&self, alloc: Global) -> Result<Roster, OutOfMemory>
        ensures { IfOk result (λ copy. copy ≡ self.now) }
    {
        let hosts = copy_hosts(alloc, self.hosts.as_slice(), self.capacity)?;
        let marks = copy_marks(alloc, self.marks.as_slice(), self.capacity)?;
        let spares = copy_spares(alloc, self.spares.as_slice(), self.capacity)?;
        let table = copy_hosts(alloc, self.table.as_slice(), self.capacity)?;
        Ok(Roster {
            hosts,
            marks,
            spares,
            table,
            capacity: self.capacity,
            pending: self.pending,
            near: self.near,
        })
    }
}
