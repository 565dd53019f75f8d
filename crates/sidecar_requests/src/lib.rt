// A sidecar's requests over HTTP: those of an actor's state, timers and reminders, and the requests of one connection,
// whatever they ask for, served in order.
//
// Promise: `serve_record` makes the entries, the exchanges and the answer that `specs/Serving` says of its command: an
// actor is held while its state or its timers are used, each write bears a number that the actor's part drew, and one of
// state the version at which the part opened last; after a hold the release follows whatever came back. Nothing else is done at any gate, and nothing else is dialled. Each
// request is read and served once, as `IsRequestServed` (`specs/Requests`) says: one that is refused makes no entry
// and no exchange, a call is served as `actor_calls` promises it, and any other command as `serve_record` does. A session's
// entries and exchanges are those of its requests, in order, and no others (`specs/Sessions`). What a session is, and how
// one ends, is said by `http_session`. Depends on `http_session`, `actor_calls`, `exchanges`, `actors_api`, `sidecar_node`,
// `frame_wire`, `part_model`, `part_core`, `timer_book`, `http_edge` and `actor_ports`.
#![tactic(auto)]

mod answering;
mod ask;
mod asking;
mod edge;
mod law;
mod outcomes;
mod record;
mod reminder;
mod serving;
mod session;
mod state;
mod stepping;
mod timer;

pub use ask::{StoreAsk, Wanted};
pub use law::{record_law, request_law};
pub use record::serve_record;
pub use serving::serve_one;
pub use session::sidecar_session;
