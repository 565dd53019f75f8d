// The sessions of the placement: frames, and the state and the rounds of its rooms over HTTP.
//
// Promise: each frame that is sent to the placement is one step of its node at a gate, and what is written are the
// spellings of the replies, in order (`specs/Placements`); over HTTP the requests that ask for a room are exactly the stated
// ones (`specs/Routes`), each is one Look, and the response is that of its reply (`specs/StateSessions`), whose body is the
// stated text (`specs/States`). Depends on `frame_session`, `placement_node`, `actors_api` for the texts of refusals,
// `call_names` for those of addresses, `step_gate`, `http_edge`, `frame_wire`, `json_text` and `place_table`.
#![tactic(auto)]

mod law;
mod placement;
mod round_text;
mod route;
mod state_response;
mod state_session;
mod state_turn;
mod text;

pub use law::placement_law;
pub use placement::{PlacementFrames, placement_session};
pub use round_text::rounds_text;
pub use route::{Asked, room_asked};
pub use state_session::placement_state_session;
pub use text::state_text;
