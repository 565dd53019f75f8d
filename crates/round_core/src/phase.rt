// The phase of a placement.
use place_table::AckStage;

/// Whether a round is running, and in which stage; its version is the last one used.
#[derive(Clone, Copy)]
pub enum RoundPhase {
    /// No round is running.
    Quiet,
    /// A round is in this stage.
    Running { stage: AckStage },
}
