// A sidecar's turns by the clock: actors whose time is over are taken from their parts, and timers fire that are due.
//
// Promise: each actor that a part gives up loses its timers, the application is told once, and the part hears that this
// is over, whatever the application said (`specs/Closings`). A tick does this first; then, on each book of timers in order,
// Due after Due at one moment; each timer that was due has its Started, its turn with one exchange with the application,
// and its Finished, whatever the turn came to (`specs/Ticks`). Depends on `sidecar_node`, `exchanges`, `app_texts` and on
// what these stand on.
#![tactic(auto)]

mod callback;
mod cell;
mod closing;
mod closing_stand;
mod closings_law;
mod counting;
mod due;
mod ends;
mod finish;
mod fire;
mod marks;
mod outcome;
mod taking;
mod tick;
mod tick_stand;
mod ticks_law;
mod timer_turn;
mod timers;

pub use closing::{Closings, close_cells, closing_turn};
pub use closings_law::closing_law;
pub use ends::TickEnd;
pub use tick::tick_turn;
pub use ticks_law::tick_law;
