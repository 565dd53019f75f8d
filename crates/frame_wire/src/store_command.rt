// What a member asks of the store.
use actor_names::{ActorKey, Member, Node, RecordName, Space};
use reminder_rows::{DueKey, Reminder};
use schedule_text::Moment;
use state_rows::{StateKey, StateOp};
use std::marker::Model;

/// Tells one command of a part from every other: the member, its part, and the command's number.
#[derive(Clone, Copy, Debug)]
pub struct Stamp {
    /// The member.
    pub member: Member,
    /// The part of the member.
    pub part: u8,
    /// The number of the command among those of the part.
    pub number: u64,
}

/// The operations of a transaction, in the order in which they are made; contracts see them as a list.
#[derive(Debug, Drop)]
pub struct StateOps {
    items: Vec<StateOp>,
}

impl Model for StateOps {
    ghost use Rattle.std.specs.Prelude.{List};
    ghost use Rattle.state_rows.specs.declared.op.StateOp.{StateOp};

    ghost Value = { List StateOp };

    ghost view = { λ a. a.items.items };
}

impl StateOps {
    ghost use Rattle.std.specs.Prelude.{◌≡◌};

    /// The operations in this vector, in its order. It takes no memory.
    pub fn from_vec(items: Vec<StateOp>) -> StateOps
        ensures { result ≡ items.items }
    {
        StateOps { items }
    }

    /// The operations.
    pub fn as_slice(&self) -> &[StateOp]
        ensures { result.now ≡ self.now }
    {
        self.items.as_slice()
    }

    /// The vector of the operations. It takes no memory.
    pub fn into_vec(self) -> Vec<StateOp>
        ensures { result.items ≡ self }
    {
        let StateOps { items } = self;
        items
    }
}

/// What a member asks of the store. A command with a stamp is carried out at most once, however often it is sent.
#[derive(Debug, Drop)]
pub enum StoreCommand {
    /// Draws the next boot of the node.
    Boot {
        space: Space,
        node: Node,
    },
    /// Makes the operations on the state of the actor, all or none; at most 65,535 are sent. The `ttl` of an upsert is
    /// from 1 to 315,360,000 seconds.
    Tx {
        stamp: Stamp,
        actor: ActorKey,
        ops: StateOps,
    },
    /// The value under a key of the actor.
    Get {
        actor: ActorKey,
        key: StateKey,
    },
    /// Registers a reminder of the actor under a name, in place of one that is there.
    PutReminder {
        stamp: Stamp,
        actor: ActorKey,
        name: RecordName,
        reminder: Reminder,
    },
    /// The reminder of the actor under a name.
    GetReminder {
        actor: ActorKey,
        name: RecordName,
    },
    /// Removes the reminder of the actor under a name, if there is one.
    DeleteReminder {
        stamp: Stamp,
        actor: ActorKey,
        name: RecordName,
    },
    /// The reminders that are due, behind this place in their order; at most `limit`, which is from 1 to 256.
    Due {
        after: Option<DueKey>,
        limit: u16,
    },
    /// The reminder has fired for this moment.
    Fired {
        stamp: Stamp,
        actor: ActorKey,
        name: RecordName,
        moment: Moment,
    },
}
