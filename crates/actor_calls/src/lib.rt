// Calls of actors that a sidecar serves: what it means that one was served, the words of it, and the serving.
//
// Promise: `IsInvoked` (`specs/Serving`) is the relation of a call of an actor's method, the entries it made on the part
// of its actor, its exchanges with the application and with other sidecars, and its answer; what a reply of a part, of the
// application or of another sidecar comes to is said exactly as it is defined (`specs/Outcomes`). A call is served as
// `IsInvoked` says: its entries are on the part of its actor and on no other gate, a turn that began has one exchange with
// the application and one End, and nothing else is dialled. A call that another sidecar forwarded here is served only if
// the book of forwarded calls says that it is new, and its response is noted there (`IsForwardServed`). Depends on
// `call_names`, `call_book`, `exchanges`, `sidecar_node`, `member_core`, `actors_api`, `app_texts` and `http_edge`.
#![tactic(auto)]

mod asking;
mod calling;
mod forwarded;
mod hopping;
mod invoke;
mod invoking;
mod law;
mod next;
mod outcomes;
mod peers;

pub use forwarded::serve_forwarded;
pub use invoke::Invoke;
pub use invoking::serve_invoke;
pub use law::{call_law, forward_law, peer_law};
pub use next::Next;
pub use outcomes::{next_of, turn_answer};
pub use peers::peer_next;
