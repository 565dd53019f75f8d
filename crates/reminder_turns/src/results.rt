// What a turn and its report came to.
use exchanges::StoreEnd;
use frame_wire::StoreAnswer;
use http_edge::{EdgeError, HttpResponse};
use part_core::PartReply;
use step_gate::Spent;

/// What a turn with a callback came to.
#[derive(Drop)]
pub enum Turned {
    /// It began: what the application answered, and what the turn's End came to.
    Called {
        got: Result<HttpResponse, EdgeError>,
        ended: Result<PartReply, Spent>,
    },
    /// It didn't begin; this was the last answer of the part.
    Refused {
        said: Result<PartReply, Spent>,
    },
}

/// What the report of a reminder came to.
#[derive(Drop)]
pub enum Reported {
    /// The part drew a number: what the store answered.
    Told { got: Result<StoreAnswer, StoreEnd> },
    /// The part drew none; this was its answer.
    Undrawn { said: Result<PartReply, Spent> },
}
