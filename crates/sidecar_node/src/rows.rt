// Rows of gates and rows of their seats.
ghost use Rattle.std.specs.Prelude.{◌≡◌, ◌+◌, ◌<◌, ◌≤◌, ℕ, length, vec_len, vec_capacity};
ghost use Rattle.std.specs.List.{insert};
ghost use Rattle.sidecar_node.specs.Rows.{AreSeatsOf};
ghost use Rattle.sidecar_node.specs.Entries.{StepsAt};

use std::sync::Wait;
use step_gate::{Gate, Machine, Seat, Spent};

/// One step at the gate of this place.
pub(crate) fn call_row<M: Machine, R: Wait>(
    rt: &R,
    gates: &Vec<Gate<M>>,
    seats: &mut Vec<Seat<M>>,
    place: usize,
    event: M::Event,
) -> Result<M::Reply, Spent>
    requires seats { AreSeatsOf M.moves gates.now.items seats.old.items }
    requires place { place < length gates.now.items }
    requires event { M.takes event }
    ensures seats { AreSeatsOf M.moves gates.now.items seats.new.items }
    ensures steps { StepsAt place event result seats.old.items seats.new.items }
{
    gates[place].call_in(rt, &mut seats[place], event)
}

/// Puts an element into a row that has room for it.
pub(crate) fn put_at<T: Drop>(row: &mut Vec<T>, place: usize, element: T)
    requires place { place ≤ vec_len row.old }
    requires room { vec_len row.old < vec_capacity row.old }
    ensures { row.new.items ≡ insert row.old.items place element }
{
    match row.insert(place, element) {
        Ok(()) => {}
        Err(_) => unreachable!(),
    }
}
