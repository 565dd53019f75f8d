// Why a firing is refused.
use schedule_text::Moment;
use thiserror::Error;

/// Why a firing is refused, in the order in which the causes are tested. The records are as before.
#[derive(Clone, Copy, Debug, Error)]
pub enum FiredError {
    /// There is no record of this actor and name.
    #[error("no such reminder")]
    NotThere,
    /// The record is due at another moment, `next`.
    #[error("the reminder is due at another moment")]
    OtherMoment { next: Moment },
}
