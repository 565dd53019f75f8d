// Changes of a tree. An element is taken out in its node and put back in it, so no change takes memory.
ghost use Rattle.std.specs.Prelude.{◌≡◌, ◌++◌, is_some};
ghost use Rattle.lists_and_limits.specs.Cuts.{IsCut, IsRun};
ghost use Rattle.lists_and_limits.specs.Lists.{found, without, without_all, with_changed, with_put};
ghost use Rattle.search_tree.specs.Trees.{element_in, IsWithoutFirst, IsWithoutOne};

use crate::balance::balanced;
use crate::element::{Change, Element, Probe};
use crate::tree::{Node, Root, Tree, close, emptied};
use std::cmp::Ordering;

// Takes out the node of the first element.
fn take_first<E: Element>(tree: &mut Tree<E>) -> Option<Box<Node<E>>>
    ensures { IsWithoutFirst tree.old tree.new result }
{
    match emptied(tree).open() {
        Root::Empty => None,
        Root::Full(mut node) => match take_first(&mut node.left) {
            None => {
                *tree = emptied(&mut node.right);
                Some(node)
            }
            Some(first) => {
                *tree = balanced(node);
                Some(first)
            }
        },
    }
}

// Joins two trees whose heights differ by one at most.
fn joined<E: Element>(left: Tree<E>, mut right: Tree<E>) -> Tree<E>
    ensures { result ≡ left ++ right }
{
    match take_first(&mut right) {
        None => left,
        Some(mut first) => {
            first.left = left;
            first.right = right;
            balanced(first)
        }
    }
}

impl<E: Element> Tree<E> {
    /// Takes out one of the elements that the probe looks for, in its node; takes no memory.
    pub fn take_one<P: Probe<E>>(&mut self, probe: &P) -> Option<Box<Node<E>>>
        requires { IsRun (P.at probe.now) self.old }
        ensures { IsWithoutOne (P.at probe.now) self.old self.new result }
    {
        match emptied(self).open() {
            Root::Empty => None,
            Root::Full(mut node) => match probe.compare(&node.element) {
                Ordering::Less => {
                    let taken = node.right.take_one(probe);
                    *self = balanced(node);
                    taken
                }
                Ordering::Equal => {
                    let left = emptied(&mut node.left);
                    let right = emptied(&mut node.right);
                    *self = joined(left, right);
                    Some(node)
                }
                Ordering::Greater => {
                    let taken = node.left.take_one(probe);
                    *self = balanced(node);
                    taken
                }
            },
        }
    }

    /// Takes out the element that the probe looks for, in its node, so that it can be put back; takes no memory.
    pub fn take<P: Probe<E>>(&mut self, probe: &P) -> Option<Box<Node<E>>>
        requires { IsCut (P.at probe.now) self.old }
        ensures taken { element_in result ≡ found (P.at probe.now) self.old }
        ensures rest { self.new ≡ without (P.at probe.now) self.old }
    {
        self.take_one(probe)
    }

    /// Drops the element that the probe looks for, and says whether there was one; takes no memory.
    pub fn remove<P: Probe<E>>(&mut self, probe: &P) -> bool
        requires { IsCut (P.at probe.now) self.old }
        ensures there { result ≡ is_some (found (P.at probe.now) self.old) }
        ensures rest { self.new ≡ without (P.at probe.now) self.old }
    {
        match self.take(probe) {
            None => false,
            Some(_node) => true,
        }
    }

    /// Drops every element that the probe looks for; takes no memory.
    pub fn remove_all<P: Probe<E>>(&mut self, probe: &P)
        requires { IsRun (P.at probe.now) self.old }
        ensures { self.new ≡ without_all (P.at probe.now) self.old }
    {
        while self.take_one(probe).is_some() {}
    }

    /// Puts an element in its place in the order and replaces an equal one; takes no memory.
    pub fn put(&mut self, mut node: Box<Node<E>>)
        requires { IsCut (λ x. E.cmp x node.value.element) self.old }
        ensures { self.new ≡ with_put E.cmp node.value.element self.old }
    {
        match emptied(self).open() {
            Root::Empty => {
                node.left = Tree::new();
                node.right = Tree::new();
                *self = close(node);
            }
            Root::Full(mut top) => match top.element.order(&node.element) {
                Ordering::Less => {
                    top.right.put(node);
                    *self = balanced(top);
                }
                Ordering::Equal => {
                    node.left = emptied(&mut top.left);
                    node.right = emptied(&mut top.right);
                    *self = close(node);
                }
                Ordering::Greater => {
                    top.left.put(node);
                    *self = balanced(top);
                }
            },
        }
    }

    /// Changes the element that the probe looks for, if there is one. It keeps its place; takes no memory.
    pub fn change<P: Probe<E>, C: Change<E>>(&mut self, probe: &P, change: &C)
        requires { IsCut (P.at probe.now) self.old }
        ensures { self.new ≡ with_changed (P.at probe.now) (C.changed change.now) self.old }
    {
        match emptied(self).open() {
            Root::Empty => {}
            Root::Full(mut node) => match probe.compare(&node.element) {
                Ordering::Less => {
                    node.right.change(probe, change);
                    *self = close(node);
                }
                Ordering::Equal => {
                    change.change(&mut node.element);
                    *self = close(node);
                }
                Ordering::Greater => {
                    node.left.change(probe, change);
                    *self = close(node);
                }
            },
        }
    }
}
