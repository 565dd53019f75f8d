// The rows of a book in a search tree, in order of lane and number.
ghost use Rattle.std.specs.Prelude.{◌≡◌, ◌<◌, ◌≤◌, [], None, length, option_copied};
ghost use Rattle.lists_and_limits.specs.Cuts.{IsRun};
ghost use Rattle.lists_and_limits.specs.Lists.{count_at, without_all, with_put};
ghost use Rattle.lists_and_limits.specs.Orders.{AscendBy};
ghost use Rattle.call_book.specs.Entries.{is_at, is_in};
ghost use Rattle.call_book.specs.Turns.{place, place_cmp, row_cmp, in_lane, row_at, rows_without, rows_with_stage, first_row};

use crate::entry::CallStage;
use crate::keys::{CallPlace, LaneRows};
use crate::lane::LaneName;
use crate::row::Row;
use search_tree::{Node, Probe, Tree};
use std::marker::Model;
use std::mem;

/// Rows in order of lane and number, at most 4,096.
#[derive(Drop)]
pub(crate) struct Rows {
    tree: Tree<Row>,
    count: u32,
}

impl Model for Rows {
    ghost use Rattle.std.specs.Prelude.{List};
    ghost use Rattle.call_book.specs.declared.row.Row.{Row};
    ghost use Rattle.call_book.specs.Turns.{AreCountedRows};

    ghost Value = { List Row };

    ghost view = { λ a. a.tree };

    ghost invariant = { λ a. AreCountedRows a.tree a.count };
}

impl Rows {
    /// No rows; takes no memory.
    pub(crate) fn new() -> Rows
        ensures { result ≡ [] }
    {
        Rows {
            tree: Tree::new(),
            count: 0,
        }
    }

    /// The rows are in order, each lane and number once, and at most 4,096.
    pub(crate) fn in_order(&self)
        ensures order { AscendBy place place_cmp self.now }
        ensures limit { length self.now ≤ 4096 }
    {
        let _tree = &self.tree;
    }

    /// How many rows there are.
    pub(crate) fn len(&self) -> u32
        ensures { result ≡ length self.now }
    {
        self.count
    }

    /// How many rows the lane has.
    pub(crate) fn count_in(&self, lane: &LaneName) -> usize
        ensures { result ≡ count_at (in_lane lane.now) self.now }
    {
        self.tree.count(&LaneRows { lane })
    }

    /// The row of a lane and a number.
    pub(crate) fn get(&self, lane: &LaneName, number: u64) -> Option<&Row>
        ensures { option_copied result ≡ row_at lane.now number self.now }
    {
        self.tree.get(&CallPlace { lane, number })
    }

    /// The row with the earliest turn of those whose call is done.
    pub(crate) fn first(&self) -> Option<&Row>
        ensures { option_copied result ≡ first_row self.now }
    {
        self.tree.first()
    }

    /// Puts a new row in its place; takes no memory.
    pub(crate) fn put(&mut self, node: Box<Node<Row>>)
        requires new { row_at node.value.element.entry.lane node.value.element.entry.number self.old ≡ None }
        requires room { length self.old < 4096 }
        ensures { self.new ≡ with_put row_cmp node.value.element self.old }
    {
        self.tree.put(node);
        self.count += 1;
    }

    // Removes the rows that are looked for.
    fn remove_all<P: Probe<Row>>(&mut self, place: &P)
        requires { IsRun (P.at place.now) self.old }
        ensures { self.new ≡ without_all (P.at place.now) self.old }
    {
        let gone = self.tree.count(place);
        self.tree.remove_all(place);
        self.count -= gone as u32;
    }

    /// Removes the row of a lane and a number; takes no memory.
    pub(crate) fn remove(&mut self, lane: &LaneName, number: u64)
        ensures { self.new ≡ rows_without (is_at lane.now number) self.old }
    {
        self.in_order();
        self.remove_all(&CallPlace { lane, number });
    }

    /// Removes the rows of a lane; takes no memory.
    pub(crate) fn remove_lane(&mut self, lane: &LaneName)
        ensures { self.new ≡ rows_without (is_in lane.now) self.old }
    {
        self.in_order();
        self.remove_all(&LaneRows { lane });
    }

    /// The call of a lane and a number is at this stage now; takes no memory.
    pub(crate) fn set_stage(&mut self, lane: &LaneName, number: u64, stage: CallStage)
        ensures { self.new ≡ rows_with_stage lane.now number stage self.old }
    {
        set_stage(&mut self.tree, lane, number, stage);
    }
}

// The node with its call at this stage.
fn restaged(mut node: Box<Node<Row>>, stage: CallStage) -> Box<Node<Row>>
    ensures { result.value.element ≡ record node.value.element { entry = record node.value.element.entry { stage = stage } } }
{
    let _old = mem::replace(&mut node.element.entry.stage, stage);
    node
}

// The call of a lane and a number is at this stage now.
fn set_stage(tree: &mut Tree<Row>, lane: &LaneName, number: u64, stage: CallStage)
    requires { AscendBy place place_cmp tree.old }
    ensures { tree.new ≡ rows_with_stage lane.now number stage tree.old }
{
    match tree.take(&CallPlace { lane, number }) {
        None => {}
        Some(node) => tree.put(restaged(node, stage)),
    }
}
