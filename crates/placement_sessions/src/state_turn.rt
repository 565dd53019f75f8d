// One request for a room.
ghost use Rattle.std.specs.Prelude.{◌≡◌, ◌≤◌, ◌≢◌, List, ℕ, [], true, Some, IfOk};
ghost use Rattle.actor_ports.specs.Port.{HasCause};
ghost use Rattle.step_gate.specs.Gates.{IsSeatOf};
ghost use Rattle.http_edge.specs.declared.message.HttpResponse.{HttpResponse};
ghost use Rattle.http_edge.specs.Carry.{Over, Writes, IsFront};
ghost use Rattle.http_edge.specs.Texts.{response_text};
ghost use Rattle.placement_node.specs.Node.{NodeAllows};
ghost use Rattle.placement_sessions.specs.Routes.{room_asked};
ghost use Rattle.placement_sessions.specs.StateTexts.{closing, refused_with};
ghost use Rattle.placement_sessions.specs.StateTurns.{AnswersTo, Responds, TurnCause, Looks, RefusedBy};

use crate::route::{Asked, room_asked};
use crate::state_response::{look_response, refused_with};
use actor_ports::{Clock, Conn, PortError};
use actors_api::{ApiRefusal, edge_refusal};
use disk_model::Disk;
use http_edge::{EdgeError, HttpRequest, HttpResponse, write_response};
use lists_and_limits::OutOfMemory;
use placement_node::{NodeEvent, NodeReply, PlacementNode};
use round_core::PlaceEvent;
use std::alloc::Global;
use std::sync::Wait;
use step_gate::{Gate, Seat, Spent};

/// What came of a request.
#[derive(Clone, Copy, Drop)]
pub(crate) enum StateTurn {
    /// Its response was written whole; `closes` says that the session ends with it.
    Answered { closes: bool },
    /// Its response wasn't written whole.
    Cut { error: PortError },
    /// The node must be opened again, so there is no response.
    Broken,
    /// The gate makes no further step.
    Spent { count: u64 },
}

// Writes a response.
fn respond<C: Conn>(alloc: Global, response: &HttpResponse, conn: &mut C) -> Result<(), PortError>
    ensures writes { Writes (C.read_traffic conn.old) (C.read_traffic conn.new) (response_text response.now) result }
    ensures cause { HasCause (C.read_faults conn.old) (C.read_faults conn.new) result }
{
    match write_response(alloc, response, conn) {
        Ok(()) => Ok(()),
        Err(EdgeError::ConnFault) => Err(PortError::Failed),
        Err(_) => Err(PortError::OutOfMemory),
    }
}

// Writes a refusal of bytes that are no request. Whether it could be written changes nothing.
fn refuse_with<C: Conn>(alloc: Global, refusal: ApiRefusal, conn: &mut C)
    ensures refuses { (front : List ℕ) × IsFront front (response_text (closing true (refused_with refusal))) × Over (C.read_traffic conn.old) (C.read_traffic conn.new) (record { read = []; written = front }) }
    ensures cause { C.read_faults conn.old ≤ C.read_faults conn.new }
{
    match refused_with(alloc, true, refusal) {
        Err(_) => {}
        Ok(response) => {
            let _written = respond(alloc, &response, conn);
        }
    }
}

/// Writes the response to bytes that are no request, if they get one.
pub(crate) fn refuse<C: Conn>(alloc: Global, error: EdgeError, conn: &mut C)
    requires whole { error ≢ EdgeError.ConnFault }
    requires memory { error ≢ EdgeError.OutOfMemory }
    ensures refuses { (front : List ℕ) × RefusedBy error front × Over (C.read_traffic conn.old) (C.read_traffic conn.new) (record { read = []; written = front }) }
    ensures cause { C.read_faults conn.old ≤ C.read_faults conn.new }
{
    match edge_refusal(error) {
        None => {}
        Some(refusal) => refuse_with(alloc, refusal, conn),
    }
}

// Makes one Look, at a moment of the clock.
fn look<R: Wait, D: Disk, K: Clock>(
    rt: &R,
    gate: &Gate<PlacementNode<D>>,
    seat: &mut Seat<PlacementNode<D>>,
    clock: &mut K,
) -> Result<NodeReply, Spent>
    requires { IsSeatOf NodeAllows gate.now seat.old }
    ensures seat { IsSeatOf NodeAllows gate.now seat.new }
    ensures looks { Looks seat.old seat.new (K.shown clock.old) (K.shown clock.new) result }
{
    let now = clock.now_ms();
    let event = NodeEvent {
        event: PlaceEvent::Look,
        now,
    };
    gate.call_in(rt, seat, event)
}

// Writes a response, if there was memory for it.
fn answer_with<C: Conn>(
    alloc: Global,
    closes: bool,
    made: Result<HttpResponse, OutOfMemory>,
    conn: &mut C,
) -> StateTurn
    ensures answers { (r : HttpResponse) → IfOk made (λ m. m ≡ r) → Responds closes (response_text r) (C.read_traffic conn.old) (C.read_traffic conn.new) result }
    ensures cause { TurnCause (C.read_faults conn.old) (C.read_faults conn.new) result }
{
    let response = match made {
        Err(_) => {
            return StateTurn::Cut {
                error: PortError::OutOfMemory,
            };
        }
        Ok(response) => response,
    };
    let written = respond(alloc, &response, conn);
    drop(response);
    match written {
        Err(error) => StateTurn::Cut { error },
        Ok(()) => StateTurn::Answered { closes },
    }
}

// Answers a request that asks for this.
fn answer_look<R: Wait, D: Disk, C: Conn, K: Clock>(
    rt: &R,
    alloc: Global,
    gate: &Gate<PlacementNode<D>>,
    seat: &mut Seat<PlacementNode<D>>,
    request: &HttpRequest,
    asked: &Asked,
    conn: &mut C,
    clock: &mut K,
) -> StateTurn
    requires seat { IsSeatOf NodeAllows gate.now seat.old }
    requires asks { room_asked request.now ≡ Some asked.now }
    ensures seat { IsSeatOf NodeAllows gate.now seat.new }
    ensures answers { AnswersTo request.now seat.old seat.new (K.shown clock.old) (K.shown clock.new) (C.read_traffic conn.old) (C.read_traffic conn.new) result }
    ensures cause { TurnCause (C.read_faults conn.old) (C.read_faults conn.new) result }
{
    let reply = match look(rt, gate, seat, clock) {
        Err(spent) => return StateTurn::Spent { count: spent.count },
        Ok(reply) => reply,
    };
    let made = look_response(alloc, request.close, &reply, asked);
    drop(reply);
    match made {
        None => StateTurn::Broken,
        Some(made) => answer_with(alloc, request.close, made, conn),
    }
}

/// Answers a request: one that asks for a room is one Look at the gate.
pub(crate) fn answer_request<R: Wait, D: Disk, C: Conn, K: Clock>(
    rt: &R,
    alloc: Global,
    gate: &Gate<PlacementNode<D>>,
    seat: &mut Seat<PlacementNode<D>>,
    request: &HttpRequest,
    conn: &mut C,
    clock: &mut K,
) -> StateTurn
    requires { IsSeatOf NodeAllows gate.now seat.old }
    ensures seat { IsSeatOf NodeAllows gate.now seat.new }
    ensures answers { AnswersTo request.now seat.old seat.new (K.shown clock.old) (K.shown clock.new) (C.read_traffic conn.old) (C.read_traffic conn.new) result }
    ensures cause { TurnCause (C.read_faults conn.old) (C.read_faults conn.new) result }
{
    match room_asked(request) {
        None => {
            let made = refused_with(alloc, request.close, ApiRefusal::NoRoute);
            answer_with(alloc, request.close, made, conn)
        }
        Some(asked) => answer_look(rt, alloc, gate, seat, request, &asked, conn, clock),
    }
}
