// The world of a solo script: the cells of its actors, without members, parts and tables.
//
// Promise: each step is that of the definition (`specs/World`), or is refused for exactly its cause. For all depths
// and events, the turns of one actor never mix, as the log of events and outcomes reports them, and no actor with
// nothing open leaves a call waiting (`solo_law`). Depends on `world_events` and `turn_core`.
#![tactic(auto)]

mod calling;
mod interner;
mod law;
mod turns;
mod types;
mod world;

pub use law::solo_law;
pub use world::SoloWorld;
