// Leases: bounded clock rates in place of the premise that a member is declared lost only once its parts have stopped.
//
// Promise: in a world in which the placement and each member has a clock of its own, and no clock goes forward less than
// half as fast as another's, a member whose lease has ended has stopped before a Tick of the placement drops it
// (`lease_law`). Depends on `world_run`, whose steps are those of the cluster model, and on the crates below it.
#![tactic(auto)]

mod book;
mod error;
mod event;
mod law;
mod lease;
mod noting;
mod passing;
mod rates;
mod stepping;
mod world;

pub use error::LeaseError;
pub use event::{ClockSteps, LeaseEvent};
pub use law::lease_law;
pub use lease::Lease;
pub use world::LeaseWorld;
