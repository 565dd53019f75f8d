// How the world of a cluster script is set up.
use part_model::TypeList;

/// How a cluster is set up. A member has `parts` parts, from 1 to 16. A type that isn't in `kinds` has these two times
/// and reentrancy off; of two entries for one type the last counts.
#[derive(Drop)]
pub struct WorldSettings {
    /// How many parts a member has.
    pub parts: u8,
    /// Settings of types.
    pub kinds: TypeList,
    /// The idle time of the other types, in milliseconds.
    pub idle_ms: u64,
    /// The drain time of the other types, in milliseconds.
    pub drain_ms: u64,
}
