// Lists of members with reserved room.
ghost use Rattle.std.specs.Prelude.{◌≡◌, ◌<◌, ◌≤◌, ◌∷◌, ◌++◌, [], IfOk, OnOk, length, vec_capacity};

use actor_names::{Member, OutOfMemory};
use std::alloc::Global;
use std::marker::Model;

/// Members in the order in which they were removed. Contracts see the members and how many there is room for.
#[derive(Drop)]
pub struct MemberList {
    items: Vec<Member>,
}

impl Model for MemberList {
    ghost use Rattle.std.specs.Prelude.{vec_capacity};
    ghost use Rattle.member_roster.specs.Listed.{Listed};

    ghost Value = { Listed };

    ghost view = { λ a. record { members = a.items.items; capacity = vec_capacity a.items } };
}

impl MemberList {
    /// The members of a vector, in its order.
    pub fn from_vec(items: Vec<Member>) -> MemberList
        ensures members { result.members ≡ items.items }
        ensures capacity { result.capacity ≡ vec_capacity items }
    {
        MemberList { items }
    }

    /// Adds a member at the end of a list with room for it.
    pub fn push_reserved(&mut self, member: Member)
        requires { length self.old.members < self.old.capacity }
        ensures members { self.new.members ≡ self.old.members ++ member ∷ [] }
        ensures capacity { self.old.capacity ≤ self.new.capacity }
    {
        match self.items.push(member) {
            Ok(()) => {}
            Err(_) => unreachable!(),
        }
    }

    /// Makes room for `count` members in all.
    pub fn reserve(&mut self, count: usize) -> Result<(), OutOfMemory>
        ensures members { self.new.members ≡ self.old.members }
        ensures capacity { self.old.capacity ≤ self.new.capacity }
        ensures ok { OnOk result (count ≤ self.new.capacity) }
    {
        self.items.reserve(count.saturating_sub(self.items.len()))?;
        Ok(())
    }

    /// The same members, with at least as much room.
    pub fn copy(&self, alloc: Global) -> Result<MemberList, OutOfMemory>
        ensures members { IfOk result (λ copy. copy.members ≡ self.now.members) }
        ensures capacity { IfOk result (λ copy. self.now.capacity ≤ copy.capacity) }
    {
        let mut items = Vec::with_capacity(alloc, self.items.capacity())?;
        items.extend_from_slice(self.items.as_slice())?;
        Ok(MemberList { items })
    }

    /// Removes all members and keeps the room.
    pub fn clear(&mut self)
        ensures { self.new ≡ record { members = []; capacity = self.old.capacity } }
    {
        self.items.clear();
    }

    /// The members.
    pub fn as_slice(&self) -> &[Member]
        ensures { result.now ≡ self.now.members }
    {
        self.items.as_slice()
    }

    /// The vector of the members; takes no memory.
    pub fn into_vec(self) -> Vec<Member>
        ensures members { result.items ≡ self.members }
        ensures capacity { vec_capacity result ≡ self.capacity }
    {
        let MemberList { items } = self;
        items
    }
}
