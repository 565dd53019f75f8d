// How long the frames between members and the placement are.
//
// Promise: each of them whose fields fit is shorter than a frame may be, so a session of the placement never ends for want of
// room in an answer. No code runs here. Depends on `frame_wire` and the crates below it.
#![tactic(auto)]

mod law;

pub use law::length_law;
