// What a tree holds, what is looked for, and what changes an element.
ghost use Rattle.std.specs.Prelude.{◌≡◌, [], ◌∷◌, ◌++◌, List, Option, None};
ghost use Rattle.std.specs.Cmp.{IsTotalOrder};
ghost use Rattle.std.specs.declared.cmp.Ordering.{Ordering};
ghost use Rattle.lists_and_limits.specs.Lists.{IsFirstSide};

use std::cmp::Ordering;

/// An element of a tree: its order, and the summary of all elements of a subtree. The summary is `()` if nothing has to
/// be known.
pub trait Element: Drop {
    /// What is known of all elements of a subtree.
    type Summary: Copy;

    /// The order of two elements.
    ghost cmp: { Self → Self → Ordering };

    /// The summary of elements in order.
    ghost summary: { List Self → Self.Summary };

    /// The one of them that `Tree::first` finds.
    ghost first: { List Self → Option Self };

    /// How this element compares with the other one.
    fn order(&self, other: &Self) -> Ordering
        ensures { result ≡ cmp self.now other.now };

    /// The summary of no elements.
    fn summary_of_none() -> Self::Summary
        ensures { result ≡ summary [] };

    /// The summary of an element together with those before it and those after it.
    fn summary_around(left: Self::Summary, element: &Self, right: Self::Summary) -> Self::Summary
        ensures { (l r : List Self) → left ≡ summary l → right ≡ summary r → result ≡ summary (l ++ element.now ∷ r) };

    /// Where the first one is: among the elements before this one (`Less`), this one itself (`Equal`), or among those
    /// after it (`Greater`).
    fn first_side(left: Self::Summary, element: &Self, right: Self::Summary) -> Ordering
        ensures { (l r : List Self) → left ≡ summary l → right ≡ summary r → IsFirstSide first l element.now r result };

    /// An empty list has no first element.
    ghost no_first: { first [] ≡ None };

    /// The order is total.
    ghost total: { IsTotalOrder cmp };
}

/// What is looked for among elements in order.
pub trait Probe<E> {
    /// How an element compares with what is looked for.
    ghost at: { Self → E → Ordering };

    /// The same.
    fn compare(&self, element: &E) -> Ordering
        ensures { result ≡ at self.now element.now };
}

/// A change of one element, which keeps its place in the order.
pub trait Change<E> {
    /// The element afterwards.
    ghost changed: { Self → E → E };

    /// Changes it.
    fn change(&self, element: &mut E)
        ensures { element.new ≡ changed self.now element.old };
}
