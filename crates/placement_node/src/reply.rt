// What happens to a node, and what it answers.
use actor_names::{Address, Node, Space};
use frame_wire::{Frame, Hosts};
use round_core::{AckStage, PlaceEvent};
use std::marker::Model;

/// An event, and the moment at which it happens, in milliseconds since 1970.
#[derive(Drop)]
pub struct NodeEvent {
    /// What happens to the placement.
    pub event: PlaceEvent,
    /// When it happens.
    pub now: u64,
}

/// A member that a round waits for: it hasn't acknowledged the stage. Copies take no memory.
#[derive(Clone, Copy)]
pub struct Awaited {
    /// The node.
    pub node: Node,
    /// Its boot.
    pub boot: u64,
    /// Where its host listens for other sidecars.
    pub address: Address,
}

/// The members that a round waits for, in byte order of node; contracts see them as a list.
#[derive(Drop)]
pub struct AwaitedMembers {
    items: Vec<Awaited>,
}

impl Model for AwaitedMembers {
    ghost use Rattle.std.specs.Prelude.{List};
    ghost use Rattle.placement_node.specs.declared.reply.Awaited.{Awaited};

    ghost Value = { List Awaited };

    ghost view = { λ a. a.items.items };
}

impl AwaitedMembers {
    ghost use Rattle.std.specs.Prelude.{◌≡◌};

    /// The members in this vector, in its order. It takes no memory.
    pub fn from_vec(items: Vec<Awaited>) -> AwaitedMembers
        ensures { result ≡ items.items }
    {
        AwaitedMembers { items }
    }

    /// The members.
    pub fn as_slice(&self) -> &[Awaited]
        ensures { result.now ≡ self.now }
    {
        self.items.as_slice()
    }
}

/// What is seen of a round that runs.
#[derive(Drop)]
pub struct RoundSeen {
    /// Its version, which is the last one that the room used.
    pub version: u64,
    /// The stage that it is in.
    pub stage: AckStage,
    /// The members that it waits for.
    pub awaited: AwaitedMembers,
}

/// What is seen of a room.
#[derive(Drop)]
pub struct RoomSeen {
    /// The space of the room.
    pub space: Space,
    /// The hosts of its members, in byte order of node.
    pub members: Hosts,
    /// The last version that it used, 0 before its first round.
    pub version: u64,
    /// The round that runs; `None` if none does.
    pub round: Option<RoundSeen>,
}

/// What is seen of all rooms, in byte order of space; contracts see them as a list.
#[derive(Drop)]
pub struct SeenRooms {
    items: Vec<RoomSeen>,
}

impl Model for SeenRooms {
    ghost use Rattle.std.specs.Prelude.{List};
    ghost use Rattle.placement_node.specs.declared.reply.RoomSeen.{RoomSeen};

    ghost Value = { List RoomSeen };

    ghost view = { λ a. a.items.items };
}

impl SeenRooms {
    ghost use Rattle.std.specs.Prelude.{◌≡◌};

    /// The rooms in this vector, in its order. It takes no memory.
    pub fn from_vec(items: Vec<RoomSeen>) -> SeenRooms
        ensures { result ≡ items.items }
    {
        SeenRooms { items }
    }

    /// The rooms.
    pub fn as_slice(&self) -> &[RoomSeen]
        ensures { result.now ≡ self.now }
    {
        self.items.as_slice()
    }

    /// The vector of the rooms. It takes no memory.
    pub fn into_vec(self) -> Vec<RoomSeen>
        ensures { result.items ≡ self }
    {
        let SeenRooms { items } = self;
        items
    }
}

/// What a node answers.
#[derive(Drop)]
pub enum NodeReply {
    /// A message: to a member, or that the event was refused.
    Message { frame: Frame },
    /// To a Look: all rooms.
    Seen { rooms: SeenRooms },
    /// To a Tick: `dropped` members were not heard for 10,000 milliseconds or more, and are no longer members.
    Ticked { dropped: u32 },
}
