// A machine: a value that steps by events and answers each with a reply.
//
// Promise: only the trait, with no handle, so that a crate can be a machine without depending on threads. What a
// machine's step allows is a relation of value, event, reply and next value, which each machine states. Depends on
// nothing.
#![tactic(auto)]

mod machine;

pub use machine::{Machine, News};
