// The nodes with their boots and lanes.
ghost use Rattle.std.specs.Prelude.{◌≡◌, ◌≤◌, ◌^◌, ◌+◌, ◌++◌, [], None, Ok, Err, is_some, option_copied, IfOk, IfErr, IfSome, OnOk, OnErr};
ghost use Rattle.lists_and_limits.specs.Lists.{first_behind};
ghost use Rattle.lists_and_limits.specs.Orders.{Ascends};
ghost use Rattle.stamp_lanes.specs.declared.answer.StampLook.TheVariants.{Fresh};
ghost use Rattle.std.specs.List.{AllByRecursion as Every};
ghost use Rattle.stamp_lanes.specs.Stamps.{node_cmp, node_at, greatest_boot, draw_fault, or_memory, after_draw, look, after_accept, after_node, next_lane, IsNode};
ghost use Rattle.stamp_lanes.specs.Restores.{boot_row_fault, after_boot_row, lane_row_fault, after_lane_row, fault_or_memory};
ghost use Rattle.stamp_lanes.specs.Prepared.{space_of, node_of};

use crate::answer::{KeptNumber, LaneAnswer, StampLook};
use crate::error::{BootError, RestoreError, StampError};
use crate::lane::Lane;
use crate::node::{MOST_NODES, NodeLanes, bare_leaf, counted, look_in, next_in, with_boot};
use crate::nodes::{accept_in, put_lane_in};
use crate::prepared::PreparedBoot;
use crate::restored::{lane_fault, restored_lane};
use crate::room::fill_lane;
use crate::standing::{AfterNode, NodePlace};
use actor_names::{MOST_BOOT, Member, Node, OutOfMemory, Space};
use search_tree::Tree;
use std::alloc::Global;
use std::marker::Model;

/// The nodes that drew boots, and the lanes of their parts. Contracts see the nodes in order of space, then node, each
/// with its lanes in order of their parts; and the room for a new acceptance.
#[derive(Drop)]
pub struct StampLanes {
    tree: Tree<NodeLanes>,
    // The greatest boot of all nodes.
    greatest: u64,
    // How many nodes there are; more than 65,536 count as that many.
    count: u32,
    // Where the lane of the next accepted number will stand, if there is none yet.
    lane: Option<Box<search_tree::Node<Lane>>>,
    alloc: Global,
}

impl Model for StampLanes {
    ghost use Rattle.stamp_lanes.specs.Stamps.{LanesState, IsSound};
    ghost use Rattle.stamp_lanes.specs.Prepared.{spare_of};

    ghost Value = { LanesState };

    ghost view = { λ a. record { spare = spare_of a.lane; nodes = a.tree } };

    ghost invariant = { λ a. IsSound a.tree a.greatest a.count };
}

impl StampLanes {
    /// No nodes. It takes no memory.
    pub fn new(alloc: Global) -> StampLanes
        ensures { result.nodes ≡ [] }
    {
        StampLanes {
            tree: Tree::new(),
            greatest: 0,
            count: 0,
            lane: None,
            alloc,
        }
    }

    // The nodes are in order, each once, and so are the lanes of each.
    pub(crate) fn in_order(&self)
        ensures order { Ascends node_cmp self.now.nodes }
        ensures each { Every IsNode self.now.nodes }
        ensures limit { greatest_boot self.now.nodes ≤ 2 ^ 62 }
    {
        let _tree = &self.tree;
    }

    // Whether the node drew a boot.
    fn is_known(&self, space: &Space, node: &Node) -> bool
        ensures { result ≡ is_some (node_at space.now node.now self.now.nodes) }
    {
        self.tree.get(&NodePlace { space, node }).is_some()
    }

    // Why the node can't draw a boot, apart from running out of memory.
    fn draw_fault(&self, space: &Space, node: &Node) -> Option<BootError>
        ensures { result ≡ draw_fault space.now node.now self.now.nodes }
    {
        if !self.is_known(space, node) && self.count >= MOST_NODES {
            return Some(BootError::NodesFull { nodes: MOST_NODES });
        }
        if self.greatest >= MOST_BOOT {
            return Some(BootError::Spent);
        }
        None
    }

    /// Takes the memory that a draw of this node needs, and leaves everything as it is. `NodesFull` exactly for a new
    /// node if there are 65,536, then `Spent` exactly if the counter of boots is at 2^62; otherwise the only error is
    /// `OutOfMemory`.
    pub fn prepare_boot(&self, space: &Space, node: &Node) -> Result<PreparedBoot, BootError>
        ensures of_space { IfOk result (λ boot. space_of boot ≡ space.now) }
        ensures of_node { IfOk result (λ boot. node_of boot ≡ node.now) }
        ensures may_draw { OnOk result (draw_fault space.now node.now self.now.nodes ≡ None) }
        ensures refused { IfSome (draw_fault space.now node.now self.now.nodes) (λ e. result ≡ Err e) }
        ensures cause { IfErr result (λ e. e ≡ or_memory (draw_fault space.now node.now self.now.nodes)) }
    {
        if let Some(refusal) = self.draw_fault(space, node) {
            return Err(refusal);
        }
        let node = bare_leaf(self.alloc, space, node, 0)?;
        Ok(PreparedBoot { node })
    }

    /// Draws the next boot of one counter for all nodes, which begins at 1, and answers it. It is the node's from then
    /// on, and the lanes of its older boot are given up. The draw must not be one that `prepare_boot` refuses. It takes
    /// no memory and can't fail.
    pub fn apply_boot(&mut self, boot: PreparedBoot) -> u64
        requires { draw_fault (space_of boot) (node_of boot) self.old.nodes ≡ None }
        ensures boot { result ≡ greatest_boot self.old.nodes + 1 }
        ensures nodes { self.new.nodes ≡ after_draw (space_of boot) (node_of boot) self.old.nodes }
        ensures room { self.new.spare ≡ self.old.spare }
    {
        let PreparedBoot { node } = boot;
        let known = self.is_known(&node.element.space, &node.element.node);
        let drawn = self.greatest + 1;
        self.greatest = drawn;
        self.count = counted(self.count, known);
        self.tree.put(with_boot(node, drawn));
        drawn
    }

    /// How the stamp stands: a number of a part of a member. `OtherBoot` exactly if the member's boot isn't the one that
    /// its node drew last; then the answer that is kept, if there is one; then `OldSeq` exactly if the number is at or
    /// below the floor of its lane, as 0 always is. It takes no memory.
    pub fn look(&self, member: &Member, part: u8, number: u64) -> Result<StampLook, StampError>
        ensures { result ≡ look member.now part number self.now.nodes }
    {
        self.in_order();
        match self.tree.get(&NodePlace {
            space: &member.space,
            node: &member.node,
        }) {
            None => Err(StampError::OtherBoot { greatest: 0 }),
            Some(node) => {
                if member.boot != node.boot {
                    return Err(StampError::OtherBoot {
                        greatest: node.boot,
                    });
                }
                look_in(&node.lanes, part, number)
            }
        }
    }

    /// Takes the memory that one more `accept` needs, so that there is room for at least one. After `OutOfMemory`
    /// everything is as before.
    pub fn reserve(&mut self) -> Result<(), OutOfMemory>
        ensures room { OnOk result (1 ≤ self.new.spare) }
        ensures nodes { self.new.nodes ≡ self.old.nodes }
        ensures err { OnErr result (self.new ≡ self.old) }
    {
        fill_lane(self.alloc, &mut self.lane)?;
        Ok(())
    }

    /// Accepts a stamp that is fresh: it joins its lane with the answer. A lane with 256 numbers drops the one that was
    /// accepted longest ago. It needs room, which `reserve` makes, takes no memory and can't fail.
    pub fn accept(&mut self, member: &Member, part: u8, number: u64, answer: LaneAnswer)
        requires fresh { look member.now part number self.old.nodes ≡ Ok Fresh }
        requires room { 1 ≤ self.old.spare }
        ensures { self.new.nodes ≡ after_accept member.now part (record { number = number; answer = answer }) self.old.nodes }
    {
        let lane = self.lane.take().unwrap();
        let kept = KeptNumber { number, answer };
        self.lane = accept_in(&mut self.tree, member, part, kept, lane);
    }

    /// The first node after another one, or the first of all. It takes no memory.
    pub fn next_node(&self, after: Option<&NodeLanes>) -> Option<&NodeLanes>
        ensures { option_copied result ≡ first_behind (after_node (option_copied after.entry)) self.now.nodes }
    {
        self.tree.next(&AfterNode { after })
    }

    /// The first lane of a node whose part is above another one, or the first of all. It takes no memory.
    pub fn next_lane(&self, space: &Space, node: &Node, after: Option<u8>) -> Option<&Lane>
        ensures { option_copied result ≡ next_lane after (node_at space.now node.now self.now.nodes) }
    {
        self.in_order();
        match self.tree.get(&NodePlace { space, node }) {
            None => None,
            Some(node) => next_in(&node.lanes, after),
        }
    }

    /// Reads back the boot of a node. `SameNode` exactly if the node has one; otherwise the only error is
    /// `OutOfMemory`. After an error everything is as before.
    pub fn restore_boot(
        &mut self,
        space: &Space,
        node: &Node,
        boot: u64,
    ) -> Result<(), RestoreError>
        requires { boot ≤ 2 ^ 62 }
        ensures ok { OnOk result (self.new.nodes ≡ after_boot_row space.now node.now boot self.old.nodes) }
        ensures refused { IfSome (boot_row_fault space.now node.now self.old.nodes) (λ e. result ≡ Err e) }
        ensures cause { IfErr result (λ e. e ≡ fault_or_memory (boot_row_fault space.now node.now self.old.nodes)) }
        ensures err { OnErr result (self.new ≡ self.old) }
        ensures room { self.new.spare ≡ self.old.spare }
    {
        if self.is_known(space, node) {
            return Err(RestoreError::SameNode);
        }
        let leaf = bare_leaf(self.alloc, space, node, boot)?;
        self.greatest = self.greatest.max(boot);
        self.count = counted(self.count, false);
        self.tree.put(leaf);
        Ok(())
    }

    // Why the lane can't be read back, apart from running out of memory.
    fn lane_fault(&self, member: &Member, part: u8, kept: &[KeptNumber]) -> Option<RestoreError>
        ensures { result ≡ lane_row_fault member.now part kept.now self.now.nodes }
    {
        self.in_order();
        match self.tree.get(&NodePlace {
            space: &member.space,
            node: &member.node,
        }) {
            None => Some(RestoreError::OtherBoot { greatest: 0 }),
            Some(node) => {
                if node.boot != member.boot {
                    return Some(RestoreError::OtherBoot {
                        greatest: node.boot,
                    });
                }
                lane_fault(&node.lanes, part, kept)
            }
        }
    }

    /// Reads back a lane. `OtherBoot` exactly if the member's boot isn't that of its node, then `SameLane` exactly if the
    /// node has a lane of the part, then `TooManyNumbers` exactly for more than 256, then `SameNumber` for the first
    /// number that comes again; otherwise the only error is `OutOfMemory`. After an error everything is as before.
    pub fn restore_lane(
        &mut self,
        member: &Member,
        part: u8,
        floor: u64,
        kept: Vec<KeptNumber>,
    ) -> Result<(), RestoreError>
        ensures ok { OnOk result (self.new.nodes ≡ after_lane_row member.now (record { part = part; floor = floor; kept = kept.items }) self.old.nodes) }
        ensures refused { IfSome (lane_row_fault member.now part kept.items self.old.nodes) (λ e. result ≡ Err e) }
        ensures cause { IfErr result (λ e. e ≡ fault_or_memory (lane_row_fault member.now part kept.items self.old.nodes)) }
        ensures err { OnErr result (self.new ≡ self.old) }
        ensures room { self.new.spare ≡ self.old.spare }
    {
        match self.lane_fault(member, part, kept.as_slice()) {
            Some(fault) => Err(fault),
            None => {
                let lane = restored_lane(self.alloc, part, floor, kept)?;
                put_lane_in(&mut self.tree, member, lane);
                Ok(())
            }
        }
    }
}
