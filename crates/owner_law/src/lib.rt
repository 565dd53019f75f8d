// What holds of the owners of actors, whatever hosts there are.
//
// Promise: an owner is among the hosts and serves the actor's type; there is none exactly if nobody serves it, or in a
// table of another space; the order of the hosts plays no part; one host more takes actors only to itself. Depends on
// `place_table` and `actor_names`.
#![tactic(auto)]

mod law;

pub use law::owner_law;
