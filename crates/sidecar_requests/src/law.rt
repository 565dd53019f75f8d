// What the definition of a served request guarantees.
ghost use Rattle.std.specs.Prelude.{ℕ, List};
ghost use Rattle.actor_names.specs.declared.address.Address.{Address};
ghost use Rattle.actors_api.specs.declared.command.ApiCommand.{ApiCommand};
ghost use Rattle.actors_api.specs.declared.reply.ApiReply.{ApiReply};
ghost use Rattle.sidecar_node.specs.declared.node.SidecarNode.{SidecarNode};
ghost use Rattle.sidecar_node.specs.declared.node.Seats.{Seats};
ghost use Rattle.sidecar_node.specs.Entries.{NodeEntry};
ghost use Rattle.sidecar_node.specs.Nodes.{part_at};
ghost use Rattle.exchanges.specs.Exchanges.{Exchange};
ghost use Rattle.sidecar_requests.specs.Serving.{IsRecordServed};
ghost use Rattle.sidecar_requests.specs.Causes.{actor_of, AreRecordEntries, AnswerHasCause};
ghost use Rattle.sidecar_requests.specs.Requests.{IsRequestServed};
ghost use Rattle.sidecar_requests.specs.Events.{AreRequestEntries};
ghost use Rattle.http_edge.specs.declared.message.HttpRequest.{HttpRequest};
ghost use Rattle.actors_api.specs.declared.side.Side.{Side};

use actor_calls::call_law;

/// What the relation of a served request of state, timers or reminders guarantees. Its entries are Holds, Releases, Draws
/// and Locks of version 0 on the part of its actor, and Sets and Deletes on that part's book, for this actor and no other.
/// Its answer has its cause in this request, and it has no answers but those of state, timers and reminders, and refusals.
pub fn record_law()
    ensures entries { (node : SidecarNode) (store : Address) (after : Seats) (command : ApiCommand) (first last : ℕ) (ns : List NodeEntry) (xs : List Exchange) (answer : ApiReply)
        → IsRecordServed node store after command first last ns xs answer → AreRecordEntries (part_at node (actor_of command)) (actor_of command) ns }
    ensures causes { (node : SidecarNode) (store : Address) (after : Seats) (command : ApiCommand) (first last : ℕ) (ns : List NodeEntry) (xs : List Exchange) (answer : ApiReply)
        → IsRecordServed node store after command first last ns xs answer → AnswerHasCause (part_at node (actor_of command)) after ns xs answer }
{}

/// What the relation of a served request guarantees, whatever it asks for. None of its entries is a Lock of another version
/// than 0, an Update, an Unlock, a Tick, a Closed, a TakeClosing or a StopPart.
pub fn request_law()
    ensures { (node : SidecarNode) (app store : Address) (side : Side) (request : HttpRequest) (after : Seats) (first last : ℕ) (ns : List NodeEntry) (xs ys zs : List Exchange) (answer : ApiReply)
        → IsRequestServed node app store side request after first last ns xs ys zs answer → AreRequestEntries ns }
{
    call_law();
}
