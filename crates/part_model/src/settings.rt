// How the actors of a part are treated, type by type.
ghost use Rattle.std.specs.Prelude.{◌≡◌};

use actor_names::{ActorType, Member};
use std::marker::Model;

/// How the actors of one type are treated.
#[derive(Drop)]
pub struct TypeSettings {
    /// The type.
    pub kind: ActorType,
    /// After how many milliseconds without a turn or hold an actor may be deactivated.
    pub idle_ms: u64,
    /// For how many milliseconds after a new table the turns of an actor of another owner may go on.
    pub drain_ms: u64,
    /// How many turns of one chain may be open on an actor at once, from 1 to 1,024; 0 turns reentrancy off.
    pub depth: u32,
}

/// Settings of types, in the order given.
#[derive(Drop)]
pub struct TypeList {
    items: Vec<TypeSettings>,
}

impl Model for TypeList {
    ghost use Rattle.std.specs.Prelude.{List};
    ghost use Rattle.part_model.specs.declared.settings.TypeSettings.{TypeSettings};

    ghost Value = { List TypeSettings };

    ghost view = { λ a. a.items.items };
}

impl TypeList {
    /// A list of the settings in the vector, in their order.
    pub fn from_vec(items: Vec<TypeSettings>) -> TypeList
        ensures { result ≡ items.items }
    {
        TypeList { items }
    }

    /// The settings.
    pub fn as_slice(&self) -> &[TypeSettings]
        ensures { result.now ≡ self.now }
    {
        self.items.as_slice()
    }

    /// The settings as a vector; takes no memory.
    pub fn into_vec(self) -> Vec<TypeSettings>
        ensures { result.items ≡ self }
    {
        let TypeList { items } = self;
        items
    }
}

/// Whose part it is, its number among the member's parts, and the settings of the types. A type that isn't listed
/// has an idle time of 3,600,000 ms, a drain time of 60,000 ms and reentrancy off. If a type has two entries, the
/// last counts.
#[derive(Drop)]
pub struct PartSettings {
    /// The member that the part belongs to.
    pub member: Member,
    /// The part's number, from 0.
    pub part: u8,
    /// The settings of types.
    pub kinds: TypeList,
}
