// A sidecar's turns with the reminders that are due: it asks the store for them page by page, and runs those whose actor
// it owns.
//
// Promise: each reminder of each page has its Ask; a turn that began has one exchange with the application's callback and
// then its End; one that reached the application is reported by one Draw and one Fired; nothing else is done at any gate,
// and nothing else is dialled (`specs/Pages`). Depends on `exchanges`, `sidecar_node`, `app_texts`,
// `frame_wire` and on what these stand on.
#![tactic(auto)]

mod calling;
mod ends;
mod law;
mod listing;
mod outcomes;
mod paging;
mod reporting;
mod results;
mod running;
mod standing;
mod turn;

pub use ends::TickEnd;
pub use law::reminder_law;
pub use results::{Reported, Turned};
pub use standing::Stand;
pub use turn::reminder_turn;
