// The heights of trees, which no clause bounds: entries are put in awkward orders, and every third one is dropped.
ghost use Rattle.std.specs.Prelude.{None, refl};
ghost use Rattle.std.specs.Ordering.{nat_cmp};
ghost use Rattle.std.proofs.lemmas.Cmp.{nat_cmp_total, on_total};

use super::*;
use std::alloc::Global;
use std::cmp::Ordering;
use std::marker::Model;
use std::test::Fail;

/// An element that is its key.
#[derive(Drop)]
struct Entry {
    key: u64,
}

impl Element for Entry {
    type Summary = ();

    ghost cmp = { λ a b. nat_cmp a.key b.key };

    ghost summary = { λ _. tt };

    ghost first = { λ _. None };

    fn order(&self, other: &Entry) -> Ordering {
        self.key.cmp(&other.key)
    }

    fn summary_of_none() {}

    fn summary_around(_left: (), _element: &Entry, _right: ()) {}

    fn first_side(_left: (), _element: &Entry, _right: ()) -> Ordering {
        Ordering::Less
    }

    ghost no_first = { refl };

    ghost total = { on_total (λ e. e.key) nat_cmp_total };
}

/// The entry of a key.
#[derive(Drop)]
struct Key {
    key: u64,
}

impl Probe<Entry> for Key {
    ghost at = { λ p e. nat_cmp e.key p.key };

    fn compare(&self, element: &Entry) -> Ordering {
        element.key.cmp(&self.key)
    }
}

/// Entries in order.
#[derive(Drop)]
struct Book {
    tree: Tree<Entry>,
}

impl Model for Book {
    ghost use Rattle.std.specs.Prelude.{List};
    ghost use Rattle.std.specs.Ordering.{nat_cmp};
    ghost use Rattle.search_tree.specs.declared.tests.Entry.{Entry};
    ghost use Rattle.lists_and_limits.specs.Orders.{AscendBy};

    ghost Value = { List Entry };

    ghost view = { λ a. a.tree };

    ghost invariant = { λ a. AscendBy (λ (e : Entry). e.key) nat_cmp a.tree };
}

impl Book {
    fn new() -> Book {
        Book { tree: Tree::new() }
    }

    fn put(&mut self, node: Box<Node<Entry>>) {
        self.tree.put(node);
    }

    fn remove(&mut self, key: u64) -> bool {
        self.tree.remove(&Key { key })
    }
}

// A book of the keys below 300, put in steps of a stride.
fn strided(alloc: Global, stride: u64) -> Result<Book, Fail> {
    let mut book = Book::new();
    for step in 0..300u64 {
        let key = step.saturating_mul(stride) % 300;
        book.put(leaf(alloc, Entry { key })?);
    }
    Ok(book)
}

// The heights before and after every third entry is dropped.
fn heights(alloc: Global, stride: u64) -> Result<(u32, u32), Fail> {
    let mut book = strided(alloc, stride)?;
    let before = book.tree.height();
    for third in 0..100u64 {
        let _was = book.remove(third * 3);
    }
    Ok((before, book.tree.height()))
}

#[test]
fn trees_stay_low_in_every_order(rt: HostRuntime) -> Result<(), Fail> {
    for stride in [1, 299, 7, 113] {
        let (before, after) = heights(rt.alloc(), stride)?;
        assert!(rt; before <= 11, "at {stride}");
        assert!(rt; after <= 10, "at {stride}");
    }
    Ok(())
}
