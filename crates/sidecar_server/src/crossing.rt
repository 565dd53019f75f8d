// A sidecar's seats may be sent to another thread, and its node shared with one. Their parts are shown to, one by one, since
// the check's own search ends before it has gone through all of them.
ghost use denote.Param.Send.{IsSend, IsSync};
ghost use Rattle.sidecar_node.specs.contracts.node.Seats as seats;
ghost use Rattle.sidecar_node.specs.contracts.node.SidecarNode as node;

use call_book::CallBook;
use part_core::Part;
use part_model::TypeList;
use step_gate::{Gate, Seat};
use timer_book::TimerBook;

// Values of the type may be sent to another thread.
fn sent<T: Send>()
    ensures { IsSend T.row }
{}

// References to them may be.
fn shared<T: Sync>()
    ensures { IsSync T.row }
{}

/// The seats of a sidecar may be sent to another thread.
pub(crate) fn seats_cross()
    ensures { IsSend (seats.the_field).row }
{
    sent::<Vec<Seat<Part>>>();
    sent::<Vec<Seat<TimerBook>>>();
    sent::<Seat<CallBook>>();
}

/// References to the node of a sidecar may be.
pub(crate) fn node_crosses()
    ensures { IsSync node.the_row }
{
    shared::<TypeList>();
    shared::<Vec<Gate<Part>>>();
    shared::<Vec<Gate<TimerBook>>>();
    shared::<Gate<CallBook>>();
}
