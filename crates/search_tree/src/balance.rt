// The balance of a tree: at each node the heights of the two sides differ by one at most. Own; as in AVL trees. It is
// proved that the elements and their order stay; the balance itself is only for speed.
ghost use Rattle.std.specs.Prelude.{◌≡◌};
ghost use Rattle.search_tree.specs.Trees.{node_items};

use crate::element::Element;
use crate::tree::{Node, Root, Tree, close, emptied};

// A right rotation: the left child comes to the top.
fn raise_left<E: Element>(mut node: Box<Node<E>>) -> Box<Node<E>>
    ensures { node_items result.value ≡ node_items node.value }
{
    match emptied(&mut node.left).open() {
        Root::Empty => node,
        Root::Full(mut child) => {
            node.left = emptied(&mut child.right);
            child.right = close(node);
            child
        }
    }
}

// A left rotation: the right child comes to the top.
fn raise_right<E: Element>(mut node: Box<Node<E>>) -> Box<Node<E>>
    ensures { node_items result.value ≡ node_items node.value }
{
    match emptied(&mut node.right).open() {
        Root::Empty => node,
        Root::Full(mut child) => {
            node.right = emptied(&mut child.left);
            child.left = close(node);
            child
        }
    }
}

// Rotates if needed, so that the left side is at least as high as the right one.
fn lean_left<E: Element>(tree: Tree<E>) -> Tree<E>
    ensures { result ≡ tree }
{
    match tree.open() {
        Root::Empty => Tree::new(),
        Root::Full(node) => {
            if node.right.height() > node.left.height() {
                close(raise_right(node))
            } else {
                close(node)
            }
        }
    }
}

// Rotates if needed, so that the right side is at least as high as the left one.
fn lean_right<E: Element>(tree: Tree<E>) -> Tree<E>
    ensures { result ≡ tree }
{
    match tree.open() {
        Root::Empty => Tree::new(),
        Root::Full(node) => {
            if node.left.height() > node.right.height() {
                close(raise_left(node))
            } else {
                close(node)
            }
        }
    }
}

/// The tree of a node whose sides differ in height by two at most, balanced again.
pub(crate) fn balanced<E: Element>(mut node: Box<Node<E>>) -> Tree<E>
    ensures { result ≡ node_items node.value }
{
    let left = node.left.height();
    let right = node.right.height();
    if left > right.saturating_add(1) {
        node.left = lean_left(emptied(&mut node.left));
        return close(raise_left(node));
    }
    if right > left.saturating_add(1) {
        node.right = lean_right(emptied(&mut node.right));
        return close(raise_right(node));
    }
    close(node)
}
