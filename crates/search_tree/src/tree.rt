// The tree itself. Own; the balance is that of AVL trees.
ghost use Rattle.std.specs.Prelude.{◌≡◌, ◌≤◌, ◌^◌, [], ◌++◌, ◌∷◌, length, option_copied, IfOk};
ghost use Rattle.lists_and_limits.specs.Cuts.{IsCut, IsRun};
ghost use Rattle.lists_and_limits.specs.Lists.{found, first_behind, count_at};
ghost use Rattle.lists_and_limits.specs.Orders.{Ascends};
ghost use Rattle.lists_and_limits.specs.Walks.{from_place, following};
ghost use Rattle.search_tree.specs.Trees.{node_items, root_items};

use crate::element::{Element, Probe};
use crate::walk::Behind;
use std::alloc::{AllocError, Global};
use std::cmp::Ordering;
use std::marker::Model;
use std::mem;

/// Elements in a search tree, seen as their list from left to right. Whether they are in order is for the caller
/// to know.
#[cycle(tree)]
#[derive(Drop)]
pub struct Tree<E: Element> {
    root: Root<E>,
}

/// The root of a tree.
#[cycle(tree)]
#[derive(Drop)]
pub(crate) enum Root<E: Element> {
    Empty,
    Full(Box<Node<E>>),
}

/// An element, the subtree of those before it, and the subtree of those after it.
#[cycle(tree)]
#[derive(Drop)]
pub struct Node<E: Element> {
    pub(crate) left: Tree<E>,
    /// The element.
    pub element: E,
    pub(crate) right: Tree<E>,
    height: u32,
    summary: E::Summary,
}

impl<E: Element> Model for Tree<E> {
    ghost use Rattle.std.specs.Prelude.{List, length};

    ghost Value = { List E };

    ghost use Rattle.search_tree.specs.Trees.{root_items, IsSummed};

    ghost view = { λ a. root_items a.root };

    ghost invariant = { λ a. IsSummed E.summary a.root };

    ghost size = { length };

    ghost use Rattle.std.proofs.Common.{arith, length-append};

    ghost size_decreases = { λ a h. Prim.grind (arith, length-append) };
}

impl<E: Element> Tree<E> {
    /// An empty tree; takes no memory.
    pub fn new() -> Tree<E>
        ensures { result ≡ [] }
    {
        Tree { root: Root::Empty }
    }

    // The top, with what is below it.
    pub(crate) fn open(self) -> Root<E>
        ensures { root_items result ≡ self }
    {
        self.root
    }

    // How many nodes are on the longest path down. Only speed depends on it.
    pub(crate) fn height(&self) -> u32 {
        match &self.root {
            Root::Empty => 0,
            Root::Full(node) => node.height,
        }
    }

    /// The summary of all elements.
    pub fn summary(&self) -> E::Summary
        ensures { result ≡ E.summary self.now }
    {
        match &self.root {
            Root::Empty => E::summary_of_none(),
            Root::Full(node) => node.summary,
        }
    }

    /// The element that the probe looks for.
    pub fn get<P: Probe<E>>(&self, probe: &P) -> Option<&E>
        requires { IsCut (P.at probe.now) self.now }
        ensures { option_copied result ≡ found (P.at probe.now) self.now }
    {
        match &self.root {
            Root::Empty => None,
            Root::Full(node) => match probe.compare(&node.element) {
                Ordering::Less => node.right.get(probe),
                Ordering::Equal => Some(&node.element),
                Ordering::Greater => node.left.get(probe),
            },
        }
    }

    /// The first element after what the probe looks for.
    pub fn next<P: Probe<E>>(&self, probe: &P) -> Option<&E>
        requires { IsCut (P.at probe.now) self.now }
        ensures { option_copied result ≡ first_behind (P.at probe.now) self.now }
    {
        match &self.root {
            Root::Empty => None,
            Root::Full(node) => match probe.compare(&node.element) {
                Ordering::Less => node.right.next(probe),
                Ordering::Equal => node.right.next(probe),
                Ordering::Greater => match node.left.next(probe) {
                    None => Some(&node.element),
                    Some(element) => Some(element),
                },
            },
        }
    }

    /// The first element behind this one in the order, or the first one of all: the next step of a walk.
    pub fn following(&self, after: Option<&E>) -> Option<&E>
        requires { Ascends E.cmp self.now }
        ensures { option_copied result ≡ following E.cmp (option_copied after.entry) self.now }
    {
        self.next(&Behind { after })
    }

    /// The first element as `Element::first` says, found by the summaries.
    pub fn first(&self) -> Option<&E>
        ensures { option_copied result ≡ E.first self.now }
    {
        match &self.root {
            Root::Empty => None,
            Root::Full(node) => {
                match E::first_side(node.left.summary(), &node.element, node.right.summary()) {
                    Ordering::Less => node.left.first(),
                    Ordering::Equal => Some(&node.element),
                    Ordering::Greater => node.right.first(),
                }
            }
        }
    }

    /// How many elements match the probe; the others are skipped.
    pub fn count<P: Probe<E>>(&self, probe: &P) -> usize
        requires run { IsRun (P.at probe.now) self.now }
        requires fits { length self.now ≤ 2 ^ 62 }
        ensures { result ≡ count_at (P.at probe.now) self.now }
    {
        match &self.root {
            Root::Empty => 0,
            Root::Full(node) => match probe.compare(&node.element) {
                Ordering::Less => node.right.count(probe),
                Ordering::Equal => node.left.count(probe) + 1 + node.right.count(probe),
                Ordering::Greater => node.left.count(probe),
            },
        }
    }
}

/// Takes the tree out of its place and leaves an empty one there.
pub(crate) fn emptied<E: Element>(tree: &mut Tree<E>) -> Tree<E>
    ensures taken { result ≡ tree.old }
    ensures left { tree.new ≡ [] }
{
    mem::replace(tree, Tree::new())
}

/// The tree of a node, whose height and summary are computed anew.
pub(crate) fn close<E: Element>(mut node: Box<Node<E>>) -> Tree<E>
    ensures { result ≡ node_items node.value }
{
    let left = node.left.height();
    let right = node.right.height();
    node.height = left.max(right).saturating_add(1);
    node.summary = E::summary_around(node.left.summary(), &node.element, node.right.summary());
    Tree {
        root: Root::Full(node),
    }
}

/// A node of this element, to be put into a tree.
pub fn leaf<E: Element>(alloc: Global, element: E) -> Result<Box<Node<E>>, AllocError>
    ensures { IfOk result (λ n. n.value.element ≡ element) }
{
    let node = Box::new(
        alloc,
        Node {
            left: Tree::new(),
            element,
            right: Tree::new(),
            height: 1,
            summary: E::summary_of_none(),
        },
    )?;
    Ok(node)
}
