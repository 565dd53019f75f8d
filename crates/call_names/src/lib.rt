// The names of the calls that one sidecar forwards to another, and the texts of names, members, addresses and numbers.
//
// Promise: a text is read as a name exactly as `specs/Readings` says, what is written is the text of `specs/Texts`, and
// a name that was written is read back as the same name. Depends on `actor_names` and `lists_and_limits`.
#![tactic(auto)]

mod address;
mod law;
mod name;
mod pieces;
mod reading;
mod writing;

pub use address::add_address;
pub use law::call_name_law;
pub use name::CallName;
pub use pieces::add_decimal;
pub use reading::{cut, member_in, read_call};
pub use writing::{add_call, add_member};
