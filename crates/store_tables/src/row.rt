// Rows of a snapshot: what one says, and under which key it stands.
ghost use Rattle.std.specs.Prelude.{◌≡◌, IfOk};
ghost use Rattle.state_rows.specs.Entries.{place_cmp};
ghost use Rattle.reminder_rows.specs.Reminders.{place_cmp as name_cmp};
ghost use Rattle.store_tables.specs.Rows.{key_of, rank, node_place_cmp, same_kind_cmp, key_cmp, is_behind};

use actor_names::{ActorKey, Member, Node, OutOfMemory, RecordName, Space};
use reminder_rows::Reminder;
use stamp_lanes::KeptNumber;
use state_rows::{StateEntry, StateKey};
use std::alloc::Global;
use std::cmp::Ordering;
use std::marker::Model;

/// Numbers of a lane with their answers, in the order in which they were accepted; contracts see the list of them.
#[derive(Drop)]
pub struct LaneNumbers {
    numbers: Vec<KeptNumber>,
}

impl Model for LaneNumbers {
    ghost use Rattle.std.specs.Prelude.{List};
    ghost use Rattle.stamp_lanes.specs.declared.answer.KeptNumber.{KeptNumber};

    ghost Value = { List KeptNumber };

    ghost view = { λ a. a.numbers.items };
}

impl LaneNumbers {
    /// The numbers of this vector.
    pub fn from_vec(numbers: Vec<KeptNumber>) -> LaneNumbers
        ensures { result ≡ numbers.items }
    {
        LaneNumbers { numbers }
    }

    /// The numbers.
    pub fn as_slice(&self) -> &[KeptNumber]
        ensures { result.now ≡ self.now }
    {
        self.numbers.as_slice()
    }

    /// The vector. It takes no memory.
    pub fn into_vec(self) -> Vec<KeptNumber>
        ensures { result.items ≡ self }
    {
        let LaneNumbers { numbers } = self;
        numbers
    }
}

/// What a row of a snapshot sets.
#[derive(Drop)]
pub enum TableRow {
    /// The boot that a node drew last.
    Boot {
        space: Space,
        node: Node,
        boot: u64,
    },
    /// The lane of a part of a member.
    Lane {
        member: Member,
        part: u8,
        floor: u64,
        kept: LaneNumbers,
    },
    /// The value under a key of an actor.
    State {
        row: StateEntry,
    },
    /// A reminder of an actor.
    Reminder {
        actor: ActorKey,
        name: RecordName,
        reminder: Reminder,
    },
}

/// What a row is kept under. Rows stand in order of kind, in the order of these variants, and then of their key.
#[derive(Drop)]
pub enum RowKey {
    /// A node.
    Boot { space: Space, node: Node },
    /// A part of a member.
    Lane { member: Member, part: u8 },
    /// A key of an actor.
    State { actor: ActorKey, key: StateKey },
    /// A reminder of an actor.
    Reminder { actor: ActorKey, name: RecordName },
}

impl TableRow {
    /// What it is kept under.
    pub fn key(&self, alloc: Global) -> Result<RowKey, OutOfMemory>
        ensures { IfOk result (λ key. key ≡ key_of self.now) }
    {
        match self {
            TableRow::Boot { space, node, .. } => Ok(RowKey::Boot {
                space: space.copy(),
                node: node.copy(),
            }),
            TableRow::Lane { member, part, .. } => Ok(RowKey::Lane {
                member: member.copy(),
                part: *part,
            }),
            TableRow::State { row } => {
                let actor = row.actor.copy(alloc)?;
                let key = String::from_str(alloc, row.key.as_str())?;
                Ok(RowKey::State {
                    actor,
                    key: StateKey::from_string(key),
                })
            }
            TableRow::Reminder { actor, name, .. } => {
                let actor = actor.copy(alloc)?;
                let name = name.copy(alloc)?;
                Ok(RowKey::Reminder { actor, name })
            }
        }
    }
}

fn node_order(space: &Space, node: &Node, other_space: &Space, other_node: &Node) -> Ordering
    ensures { result ≡ node_place_cmp space.now node.now other_space.now other_node.now }
{
    match space.cmp(other_space) {
        Ordering::Equal => node.cmp(other_node),
        order => order,
    }
}

impl RowKey {
    // The place of its kind.
    fn rank(&self) -> u8
        ensures { result ≡ rank self.now }
    {
        match self {
            RowKey::Boot { .. } => 0,
            RowKey::Lane { .. } => 1,
            RowKey::State { .. } => 2,
            RowKey::Reminder { .. } => 3,
        }
    }

    // How it compares with one of its kind.
    fn same_kind_order(&self, other: &RowKey) -> Ordering
        ensures { result ≡ same_kind_cmp self.now other.now }
    {
        match (self, other) {
            (RowKey::Boot { space, node }, RowKey::Boot { space: s, node: n }) => {
                node_order(space, node, s, n)
            }
            (RowKey::Lane { member, part }, RowKey::Lane { member: m, part: p }) => {
                match node_order(&member.space, &member.node, &m.space, &m.node) {
                    Ordering::Equal => part.cmp(p),
                    order => order,
                }
            }
            (RowKey::State { actor, key }, RowKey::State { actor: a, key: k }) => {
                match actor.cmp(a) {
                    Ordering::Equal => key.as_str().as_bytes().cmp(&k.as_str().as_bytes()),
                    order => order,
                }
            }
            (RowKey::Reminder { actor, name }, RowKey::Reminder { actor: a, name: n }) => {
                match actor.cmp(a) {
                    Ordering::Equal => name.cmp(n),
                    order => order,
                }
            }
            _ => Ordering::Less,
        }
    }

    fn order(&self, other: &RowKey) -> Ordering
        ensures { result ≡ key_cmp self.now other.now }
    {
        match self.rank().cmp(&other.rank()) {
            Ordering::Equal => self.same_kind_order(other),
            order => order,
        }
    }

    /// Whether it comes behind another key in the order of rows; without another one it does.
    pub fn is_behind(&self, last: &Option<RowKey>) -> bool
        ensures { result ≡ is_behind last.now self.now }
    {
        match last {
            None => true,
            Some(last) => matches!(last.order(self), Ordering::Less),
        }
    }
}
