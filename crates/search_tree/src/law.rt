// What holds of the definitions. The function that states it does nothing.
ghost use Rattle.lists_and_limits.specs.Orders.{OrderLaw};
ghost use Rattle.lists_and_limits.specs.Walks.{WalkLaw};

use crate::element::Element;

/// Elements in order are cut by anything that has a place in the order, and stay in order when one is put and when one
/// or all matches are removed.
pub fn order_law<E: Element>()
    ensures { OrderLaw E.cmp }
{}

/// A walk over elements in order gives each of them once, and putting them in this order makes the list anew.
pub fn walk_law<E: Element>()
    ensures { WalkLaw E.cmp }
{}
