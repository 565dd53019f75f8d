// The stages of a placement round.

/// The stage of a placement round that a host acknowledges.
#[derive(Clone, Copy, Debug, PartialEq, Eq)]
pub enum AckStage {
    /// No new actor begins.
    Lock,
    /// The new table is taken up.
    Update,
    /// Actors begin by the new table.
    Unlock,
}
