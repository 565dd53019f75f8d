// A new node.
ghost use Rattle.std.specs.Prelude.{◌≡◌, ◌≤◌, ◌<◌, [], ℕ, length, IfOk};
ghost use Rattle.part_model.specs.Machine.{PartAllows};
ghost use Rattle.part_model.specs.Part.{new_part};
ghost use Rattle.part_model.specs.Settings.{AreShallow};
ghost use Rattle.call_book.specs.Book.{new_book as no_calls};
ghost use Rattle.call_book.specs.Machine.{BookMoves};
ghost use Rattle.timer_book.specs.Book.{new_book};
ghost use Rattle.timer_book.specs.Machine.{TimerMoves};
ghost use Rattle.sidecar_node.specs.Rows.{Along, IsNewAt};
ghost use Rattle.sidecar_node.specs.Nodes.{IsSeatsOf, IsNewNode};

use crate::node::{Seats, SidecarNode};
use actor_names::{Member, OutOfMemory};
use call_book::CallBook;
use part_core::Part;
use part_model::{PartSettings, TypeList, TypeSettings};
use place_table::HostInfo;
use std::alloc::Global;
use step_gate::{Gate, Seat};
use timer_book::TimerBook;

// Equal settings of one type.
fn copy_settings(alloc: Global, settings: &TypeSettings) -> Result<TypeSettings, OutOfMemory>
    ensures { IfOk result (λ copy. copy ≡ settings.now) }
{
    Ok(TypeSettings {
        kind: settings.kind.copy(alloc)?,
        idle_ms: settings.idle_ms,
        drain_ms: settings.drain_ms,
        depth: settings.depth,
    })
}

// Equal settings.
fn copy_kinds(alloc: Global, kinds: &TypeList) -> Result<TypeList, OutOfMemory>
    ensures { IfOk result (λ copy. copy ≡ kinds.now) }
{
    let mut items = Vec::new(alloc);
    for kind in kinds.as_slice() {
        items.push(copy_settings(alloc, kind)?)?;
    }
    Ok(TypeList::from_vec(items))
}

// The gate of a new part, and its seat.
fn new_part_gate(
    alloc: Global,
    member: &Member,
    kinds: &TypeList,
    number: u8,
) -> Result<(Gate<Part>, Seat<Part>), OutOfMemory>
    requires { AreShallow kinds.now }
    ensures { IfOk result (λ r. IsNewAt PartAllows (record { state = new_part member.now number kinds.now; recent = [] }) r.0 r.1) }
{
    let copied = copy_kinds(alloc, kinds)?;
    let settings = PartSettings {
        member: *member,
        part: number,
        kinds: copied,
    };
    let part = Part::new(alloc, settings)?;
    Gate::new(alloc, part)
}

// The gate of an empty book, and its seat.
fn new_book_gate(alloc: Global) -> Result<(Gate<TimerBook>, Seat<TimerBook>), OutOfMemory>
    ensures { IfOk result (λ r. IsNewAt TimerMoves new_book r.0 r.1) }
{
    let book = TimerBook::new(alloc);
    Gate::new(alloc, book)
}

// The gate of an empty book of forwarded calls, and its seat.
fn new_calls_gate(alloc: Global) -> Result<(Gate<CallBook>, Seat<CallBook>), OutOfMemory>
    ensures { IfOk result (λ r. IsNewAt BookMoves no_calls r.0 r.1) }
{
    let book = CallBook::new(alloc);
    Gate::new(alloc, book)
}

// The gates of new parts, numbered from 0, and their seats.
fn new_parts(
    alloc: Global,
    member: &Member,
    kinds: &TypeList,
    parts: u8,
) -> Result<(Vec<Gate<Part>>, Vec<Seat<Part>>), OutOfMemory>
    requires { AreShallow kinds.now }
    ensures many { IfOk result (λ r. length r.0.items ≡ parts) }
    ensures new { IfOk result (λ r. Along (λ k gate seat. IsNewAt PartAllows (record { state = new_part member.now k kinds.now; recent = [] }) gate seat) r.0.items r.1.items) }
{
    let mut gates = Vec::new(alloc);
    let mut seats = Vec::new(alloc);
    for number in 0..parts {
        let (gate, seat) = new_part_gate(alloc, member, kinds, number)?;
        gates.push(gate)?;
        seats.push(seat)?;
    }
    Ok((gates, seats))
}

// The gates of empty books, and their seats.
fn new_books(
    alloc: Global,
    books: u8,
) -> Result<(Vec<Gate<TimerBook>>, Vec<Seat<TimerBook>>), OutOfMemory>
    ensures many { IfOk result (λ r. length r.0.items ≡ books) }
    ensures new { IfOk result (λ r. Along (λ k gate seat. IsNewAt TimerMoves new_book gate seat) r.0.items r.1.items) }
{
    let mut gates = Vec::new(alloc);
    let mut seats = Vec::new(alloc);
    for number in 0..books {
        let (gate, seat) = new_book_gate(alloc)?;
        gates.push(gate)?;
        seats.push(seat)?;
    }
    Ok((gates, seats))
}

impl SidecarNode {
    /// A node of the host with 1 to 16 new parts, each with an empty book of timers, and an empty book of forwarded
    /// calls; and the node's first seats. The depths in the settings must be at most 1,024.
    pub fn new(
        alloc: Global,
        host: HostInfo,
        kinds: TypeList,
        parts: u8,
    ) -> Result<(SidecarNode, Seats), OutOfMemory>
        requires some { 1 ≤ parts }
        requires few { parts ≤ 16 }
        requires shallow { AreShallow kinds }
        ensures seats { IfOk result (λ r. IsSeatsOf r.0 r.1) }
        ensures new { IfOk result (λ r. IsNewNode host kinds parts r.0 r.1) }
    {
        let (part_gates, part_seats) = new_parts(alloc, &host.member, &kinds, parts)?;
        let (book_gates, book_seats) = new_books(alloc, parts)?;
        let (calls_gate, calls_seat) = new_calls_gate(alloc)?;
        let node = SidecarNode {
            host,
            kinds,
            parts: part_gates,
            books: book_gates,
            calls: calls_gate,
        };
        let seats = Seats {
            parts: part_seats,
            books: book_seats,
            calls: calls_seat,
        };
        Ok((node, seats))
    }
}
