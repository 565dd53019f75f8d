// One actor's turns: which call begins, which waits and which is refused.
//
// Promise: each call of a `Cell` follows the cell rule (`specs/Cell`). So turns that overlap carry the same chain,
// and no more of them are open at once than the depth allows (`specs/CellMarks`). Depends on
// actor_names and lists_and_limits.
#![tactic(auto)]

mod answer;
mod cell;
mod law;
mod queue;
mod turns;

pub use answer::{Asked, CellEnd, CellError, CellPoll, NotHeld};
pub use cell::Cell;
pub use law::turns_isolated_law;
