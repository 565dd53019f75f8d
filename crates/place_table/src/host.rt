// Hosts: the members that serve actors, and the types that each serves.
ghost use Rattle.std.specs.Prelude.{◌≡◌, IfOk, bytes_eq};
ghost use Rattle.std.specs.Cmp.{partial_equiv_from_equiv};
ghost use Rattle.std.specs.Cmp.Lexicographic.{pointwise, lists_per, lists_equiv, nat_list_eq_equiv};

use actor_names::{ActorType, Address, AppId, Member, OutOfMemory};
use std::alloc::Global;
use std::marker::Model;

/// The actor types that a host serves, in the order given.
#[derive(Debug, Drop)]
pub struct ActorTypes {
    items: Vec<ActorType>,
}

impl Model for ActorTypes {
    ghost use Rattle.std.specs.Prelude.{List, ℕ};

    ghost Value = { List (List ℕ) };

    ghost view = { λ a. a.items.items };
}

impl ActorTypes {
    /// The types of a vector, in its order.
    pub fn from_vec(items: Vec<ActorType>) -> ActorTypes
        ensures { result ≡ items.items }
    {
        ActorTypes { items }
    }

    /// The types.
    pub fn as_slice(&self) -> &[ActorType]
        ensures { result.now ≡ self.now }
    {
        self.items.as_slice()
    }

    /// The vector of the types; takes no memory.
    pub fn into_vec(self) -> Vec<ActorType>
        ensures { result.items ≡ self }
    {
        let ActorTypes { items } = self;
        items
    }

    /// Equal types.
    pub fn copy(&self, alloc: Global) -> Result<ActorTypes, OutOfMemory>
        ensures { IfOk result (λ copy. copy ≡ self.now) }
    {
        let mut items = Vec::new(alloc);
        for kind in self.items.iter() {
            items.push(kind.copy(alloc)?)?;
        }
        Ok(ActorTypes { items })
    }
}

impl PartialEq for ActorTypes {
    ghost eq = { pointwise bytes_eq };

    ghost laws = { lists_per (partial_equiv_from_equiv nat_list_eq_equiv) };

    fn eq(&self, other: &ActorTypes) -> bool {
        self.as_slice() == other.as_slice()
    }
}

impl Eq for ActorTypes {
    ghost laws = { lists_equiv nat_list_eq_equiv };
}

/// A member that serves actors. Two are equal if all their fields are, with the types in the same order.
#[derive(Debug, Drop, PartialEq, Eq)]
pub struct HostInfo {
    /// The space, the node and its boot.
    pub member: Member,
    /// The application that serves the actors.
    pub app: AppId,
    /// Where the host listens.
    pub address: Address,
    /// The types that it serves.
    pub kinds: ActorTypes,
}

impl HostInfo {
    /// An equal host.
    pub fn copy(&self, alloc: Global) -> Result<HostInfo, OutOfMemory>
        ensures { IfOk result (λ copy. copy ≡ self.now) }
    {
        let app = self.app.copy(alloc)?;
        let kinds = self.kinds.copy(alloc)?;
        Ok(HostInfo {
            member: self.member,
            app,
            address: self.address,
            kinds,
        })
    }
}
