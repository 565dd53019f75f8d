// A balanced search tree, seen as the list of its elements in order. Each node knows a summary of all elements of
// its subtree, such as the least of a second value.
//
// Promise: each call changes the list as `specs/Lists` of lists_and_limits says, for every order that the elements state
// and every probe that cuts the list (`specs/Cuts` there), as each place of a lawful order does (`specs/Orders` there).
// Only `leaf` takes memory: an element is taken out in its node and put back in it. That the tree stays balanced
// matters only for speed, and no clause says it. Depends on lists_and_limits.
#![tactic(auto)]

mod balance;
mod change;
mod element;
mod law;
mod tree;
mod walk;

pub use element::{Change, Element, Probe};
pub use law::{order_law, walk_law};
pub use tree::{Node, Tree, leaf};

#[cfg(test)]
mod tests;
