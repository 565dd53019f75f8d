// A node as the machine of a gate.
use crate::node::PlacementNode;
use crate::reply::{NodeEvent, NodeReply};
use disk_model::Disk;
use state_machine::{Machine, News};

impl<D: Disk> Machine for PlacementNode<D> {
    ghost use Rattle.placement_node.specs.Ranges.{EventFits};
    ghost use Rattle.placement_node.specs.Node.{NodeAllows};

    type Event = NodeEvent;

    type Reply = NodeReply;

    ghost takes = { λ e. EventFits e.event };

    ghost moves = { NodeAllows };

    fn step(&mut self, event: NodeEvent) -> NodeReply {
        let NodeEvent { event, now } = event;
        PlacementNode::step(self, event, now)
    }

    // No session waits for the event of another.
    fn news(_reply: &NodeReply) -> News {
        News::Nobody
    }
}
