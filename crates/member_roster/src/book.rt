// The greatest boot of each node that was ever a member.
ghost use Rattle.std.specs.Prelude.{◌≡◌, ◌<◌, ◌≤◌, [], false, length, OnOk, OnErr, IfOk};
ghost use Rattle.member_roster.specs.Members.{greatest_boot, is_known, put_boot};

use actor_names::{Member, Node, OutOfMemory};
use std::alloc::Global;
use std::collections::BTreeMap;
use std::marker::Model;

/// A node, and the greatest boot that it joined with.
#[derive(Clone, Copy)]
pub struct Known {
    /// The node.
    pub node: Node,
    /// The greatest boot.
    pub greatest: u64,
}

/// The known nodes in byte order, at most 65,536, each with its greatest boot.
#[derive(Drop)]
pub struct BootBook {
    boots: BTreeMap<Node, u64>,
}

impl Model for BootBook {
    ghost use Rattle.std.specs.Prelude.{List, length, ◌≤◌};
    ghost use Rattle.member_roster.specs.declared.book.Known.{Known};
    ghost use Rattle.member_roster.specs.Book.{known_in};

    ghost Value = { List Known };

    ghost view = { λ a. known_in a.boots.entries };

    ghost invariant = { λ a. length a.boots.entries ≤ 65536 };
}

impl BootBook {
    /// An empty book.
    pub fn new(alloc: Global) -> BootBook
        ensures { result ≡ [] }
    {
        BootBook {
            boots: BTreeMap::new(alloc),
        }
    }

    /// How many nodes are known.
    pub fn len(&self) -> u32
        ensures count { result ≡ length self.now }
        ensures within { result ≤ 65536 }
    {
        self.boots.len() as u32
    }

    /// The greatest boot of the node, 0 if the node is unknown.
    pub fn greatest(&self, node: &Node) -> u64
        ensures { result ≡ greatest_boot self.now node.now }
    {
        match self.boots.get(node) {
            Some(greatest) => *greatest,
            None => 0,
        }
    }

    /// Whether the node is known.
    pub fn knows(&self, node: &Node) -> bool
        ensures { result ≡ is_known self.now node.now }
    {
        self.boots.contains_key(node)
    }

    /// Makes the member's boot the greatest one of its node. If memory runs out, the book is as before.
    pub fn put(&mut self, member: Member) -> Result<(), OutOfMemory>
        requires { is_known self.old member.node ≡ false → length self.old < 65536 }
        ensures ok { OnOk result (self.new ≡ put_boot self.old member) }
        ensures err { OnErr result (self.new ≡ self.old) }
    {
        let _before = self.boots.insert(member.node, member.boot)?;
        Ok(())
    }

    /// Forgets all nodes.
    pub fn clear(&mut self)
        ensures { self.new ≡ [] }
    {
        self.boots.clear();
    }

    /// An equal book.
    pub fn copy(&self) -> Result<BootBook, OutOfMemory>
        ensures { IfOk result (λ copy. copy ≡ self.now) }
    {
        match self.boots.clone() {
            Ok(boots) => Ok(BootBook { boots }),
            Err(_) => Err(OutOfMemory),
        }
    }
}
