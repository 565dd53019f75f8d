// What a member tells the placement of its parts.
use place_table::AckStage;

/// An acknowledgement: the member has reached this stage of the round of `version`.
#[derive(Clone, Copy)]
pub struct Ack {
    /// The stage.
    pub stage: AckStage,
    /// The version of the round.
    pub version: u64,
}
