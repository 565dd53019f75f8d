// How a lane stands to a boot, and the room for one more call.
use crate::lane::LaneName;

/// How a lane stands to a boot.
#[derive(Drop)]
pub(crate) enum Standing {
    /// The lane has a greater boot.
    Old { greatest: u64 },
    /// The lane is new, and there are 4,096.
    LanesFull,
    /// The lane is new or has a lesser boot.
    Bare,
    /// The lane has this boot.
    Current { floor: u64 },
}

/// The room for one more call.
#[derive(Drop)]
pub(crate) enum Room {
    /// There are fewer than 4,096.
    Free,
    /// There are 4,096, and this one, which is done, makes room.
    Dropping { lane: LaneName, number: u64 },
    /// There are 4,096, and all of them run.
    Full,
}
