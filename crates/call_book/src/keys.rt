// How lanes and rows are ordered in search trees: lanes by name, rows by lane and number, with the first turn of a call
// that is done below each node.
ghost use Rattle.std.specs.Prelude.{◌≡◌, refl, None};
ghost use Rattle.call_book.specs.Lanes.{at_lane, risen};
ghost use Rattle.call_book.specs.Entries.{at_call, is_in};
ghost use Rattle.call_book.specs.Turns.{lane_order, row_cmp, first_row, first_turn, in_lane};
ghost use Rattle.call_book.specs.Orders.{lanes_total, rows_total};

use crate::lane::{CallLane, LaneName};
use crate::row::Row;
use crate::turns::{done_turn, first_from, is_first, sooner};
use search_tree::{Change, Element, Probe};
use std::cmp::Ordering;

impl Element for CallLane {
    type Summary = ();

    ghost cmp = { lane_order };

    ghost summary = { λ _. tt };

    ghost first = { λ _. None };

    fn order(&self, other: &CallLane) -> Ordering {
        self.name.order(&other.name)
    }

    fn summary_of_none() {}

    fn summary_around(_left: (), _element: &CallLane, _right: ()) {}

    fn first_side(_left: (), _element: &CallLane, _right: ()) -> Ordering {
        Ordering::Less
    }

    ghost no_first = { refl };

    ghost total = { lanes_total };
}

/// The place of the lane with this name.
#[derive(Drop)]
pub(crate) struct LanePlace<'a> {
    pub(crate) name: &'a LaneName,
}

impl<'a> Probe<CallLane> for LanePlace<'a> {
    ghost at = { λ p l. at_lane p.name.now l };

    fn compare(&self, element: &CallLane) -> Ordering {
        element.name.order(self.name)
    }
}

/// The number of a call that is dropped.
#[derive(Drop)]
pub(crate) struct Risen {
    pub(crate) number: u64,
}

impl Change<CallLane> for Risen {
    ghost changed = { λ c l. risen c.number l };

    fn change(&self, element: &mut CallLane) {
        element.floor = element.floor.max(self.number);
    }
}

// How a row compares with this lane and number.
fn row_cmp(row: &Row, lane: &LaneName, number: u64) -> Ordering
    ensures { result ≡ at_call lane.now number row.now.entry }
{
    match row.entry.lane.order(lane) {
        Ordering::Equal => row.entry.number.cmp(&number),
        different => different,
    }
}

impl Element for Row {
    type Summary = Option<u64>;

    ghost cmp = { row_cmp };

    ghost summary = { first_turn };

    ghost first = { first_row };

    fn order(&self, other: &Row) -> Ordering {
        row_cmp(self, &other.entry.lane, other.entry.number)
    }

    fn summary_of_none() -> Option<u64> {
        None
    }

    fn summary_around(left: Option<u64>, element: &Row, right: Option<u64>) -> Option<u64> {
        sooner(left, first_from(element, right))
    }

    fn first_side(left: Option<u64>, element: &Row, right: Option<u64>) -> Ordering {
        if is_first(&left, &first_from(element, right)) {
            Ordering::Less
        } else if is_first(&done_turn(element), &right) {
            Ordering::Equal
        } else {
            Ordering::Greater
        }
    }

    ghost no_first = { refl };

    ghost total = { rows_total };
}

/// The place of the row with this lane and number.
#[derive(Drop)]
pub(crate) struct CallPlace<'a> {
    pub(crate) lane: &'a LaneName,
    pub(crate) number: u64,
}

impl<'a> Probe<Row> for CallPlace<'a> {
    ghost at = { λ p r. at_call p.lane.now p.number r.entry };

    fn compare(&self, element: &Row) -> Ordering {
        row_cmp(element, self.lane, self.number)
    }
}

/// The place of the rows of this lane.
#[derive(Drop)]
pub(crate) struct LaneRows<'a> {
    pub(crate) lane: &'a LaneName,
}

impl<'a> Probe<Row> for LaneRows<'a> {
    ghost at = { λ p r. in_lane p.lane.now r };

    fn compare(&self, element: &Row) -> Ordering {
        element.entry.lane.order(self.lane)
    }
}
