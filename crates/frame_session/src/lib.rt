// A session of frames: any machine that is asked at seats, asked over a connection.
//
// Promise: each frame that is read is asked once, at a moment of the clock, and nothing else is asked at the seat. What is
// written are the spellings of the replies, in order, and each end has its cause (`specs/Sessions`). A step gate is such a
// place, at which each frame is one step; so is a gate where callers share steps, at which each frame stands in one.
// Depends on `step_gate`, `group_gate`, `frame_wire`, `http_edge` (which says what goes over a connection) and
// `actor_ports`.
#![tactic(auto)]

mod answers;
mod asked;
mod at_group_gate;
mod at_step_gate;
mod ends;
mod fetch;
mod session;
mod turn;

pub use answers::AnswersFrames;
pub use asked::Askable;
pub use at_group_gate::PlacedSeat;
pub use ends::{cut_end, end_of_input};
pub use fetch::{Fetched, fetch_piece};
pub use session::frame_session;
