// The stages of a part.

/// Where a part is in the rounds of the placement. The version of a stage is the greatest version that the part
/// has seen.
#[derive(Clone, Copy)]
pub enum Stage {
    /// No new chain begins.
    Locked,
    /// The table of the round is installed, and actors of other owners are given up.
    Updated,
    /// Actors that the table gives to this member begin.
    Open,
    /// Nothing happens any more.
    Stopped,
}

/// The stage of a part as a receipt gives it.
#[derive(Clone, Copy)]
pub enum SeenStage {
    /// No new chain begins.
    Locked,
    /// The round's table is installed, and some active actor belongs to another owner.
    Draining,
    /// The round's table is installed, and no active actor belongs to another owner.
    Drained,
    /// Actors that the installed table gives to this member begin.
    Open,
    /// Nothing happens any more.
    Stopped,
}
