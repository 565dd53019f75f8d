// A second seat of each gate of a node, and the joining of seats. Neither waits.
ghost use Rattle.std.specs.Prelude.{◌≡◌, ◌≤◌, [], length, vec_capacity, IfOk};
ghost use Rattle.sidecar_node.specs.Rows.{Along, AreSeatsOf, KeepsLists, StartsFrom, MeetsAt};
ghost use Rattle.sidecar_node.specs.Nodes.{IsSeatsOf, KeepsAll, StartFrom, MeetAll};

use crate::node::{Seats, SidecarNode};
use actor_names::OutOfMemory;
use std::alloc::Global;
use step_gate::{Gate, Machine, Seat};

// A second seat of each gate.
fn split_row<M: Machine>(gates: &Vec<Gate<M>>, seats: &mut Vec<Seat<M>>, others: &mut Vec<Seat<M>>)
    requires seats { AreSeatsOf M.moves gates.now.items seats.old.items }
    requires none { others.old.items ≡ [] }
    requires room { length gates.now.items ≤ vec_capacity others.old }
    ensures seats { AreSeatsOf M.moves gates.now.items seats.new.items }
    ensures others { AreSeatsOf M.moves gates.now.items others.new.items }
    ensures kept { Along (λ k old new. KeepsLists old new) seats.old.items seats.new.items }
    ensures given { Along (λ k old new. StartsFrom old new) seats.old.items others.new.items }
{
    for k in 0..gates.len() {
        let other = gates[k].split_in(&mut seats[k]);
        others.push_reserved(other);
    }
}

// Joins the seats of each gate.
fn join_row<M: Machine>(gates: &Vec<Gate<M>>, kept: &mut Vec<Seat<M>>, mut given: Vec<Seat<M>>)
    requires kept { AreSeatsOf M.moves gates.now.items kept.old.items }
    requires given { AreSeatsOf M.moves gates.now.items given.items }
    ensures seats { AreSeatsOf M.moves gates.now.items kept.new.items }
    ensures meet { Along (MeetsAt given.items) kept.old.items kept.new.items }
{
    while let Some(seat) = given.pop() {
        let k = given.len();
        gates[k].join_in(&mut kept[k], seat);
    }
}

impl SidecarNode {
    /// Gives second seats, which have seen as much as the first and have made no entry. If memory runs out, the lists
    /// of the first are as before.
    pub fn split(&self, alloc: Global, mut seats: Seats) -> (Seats, Result<Seats, OutOfMemory>)
        requires { IsSeatsOf self.now seats }
        ensures seats { IsSeatsOf self.now result.0 }
        ensures kept { KeepsAll seats result.0 }
        ensures given { IfOk result.1 (λ s. IsSeatsOf self.now s) }
        ensures from { IfOk result.1 (λ s. StartFrom seats s) }
    {
        let Ok(mut parts) = Vec::with_capacity(alloc, self.parts.len()) else {
            return (seats, Err(OutOfMemory));
        };
        let Ok(mut books) = Vec::with_capacity(alloc, self.books.len()) else {
            return (seats, Err(OutOfMemory));
        };
        split_row(&self.parts, &mut seats.parts, &mut parts);
        split_row(&self.books, &mut seats.books, &mut books);
        let calls = self.calls.split_in(&mut seats.calls);
        (
            seats,
            Ok(Seats {
                parts,
                books,
                calls,
            }),
        )
    }

    /// Ends the given seats. The kept ones have then seen all that either had seen; their own entries stay.
    pub fn join(&self, mut kept: Seats, given: Seats) -> Seats
        requires kept { IsSeatsOf self.now kept }
        requires given { IsSeatsOf self.now given }
        ensures seats { IsSeatsOf self.now result }
        ensures meet { MeetAll kept given result }
    {
        let Seats {
            parts,
            books,
            calls,
        } = given;
        join_row(&self.parts, &mut kept.parts, parts);
        join_row(&self.books, &mut kept.books, books);
        self.calls.join_in(&mut kept.calls, calls);
        kept
    }
}
