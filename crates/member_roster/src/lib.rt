// The members of a cluster, what is kept for each, and the greatest boot of each node that was ever a member.
//
// Promise: each call of a `Roster` and of a `BootBook` reads or changes its list as `specs/Members` defines.
// Depends on `place_table` and `actor_names`.
#![tactic(auto)]

mod book;
mod copies;
mod copying;
mod late;
mod list;
mod marks;
mod reserved;
mod roster;
mod search;

pub use book::{BootBook, Known};
pub use copying::copy_option;
pub use list::MemberList;
pub use marks::Mark;
pub use roster::Roster;
