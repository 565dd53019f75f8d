// What the words of a served request guarantee.
ghost use Rattle.std.specs.Prelude.{◌≡◌, ℕ, List};
ghost use Rattle.actor_names.specs.declared.member.Member.{Member};
ghost use Rattle.actor_names.specs.declared.address.Address.{Address};
ghost use Rattle.http_edge.specs.declared.message.HttpRequest.{HttpRequest};
ghost use Rattle.http_edge.specs.declared.message.HttpResponse.{HttpResponse};
ghost use Rattle.actors_api.specs.declared.reply.ApiReply.{ApiReply};
ghost use Rattle.actors_api.specs.declared.side.Side.{Side};
ghost use Rattle.actors_api.specs.declared.side.Side.TheVariants.{Peer};
ghost use Rattle.actors_api.specs.Responses.{response_of};
ghost use Rattle.app_texts.specs.PeerReplies.{reply_reading};
ghost use Rattle.sidecar_node.specs.declared.node.Seats.{Seats};
ghost use Rattle.sidecar_node.specs.Entries.{PartEntry};
ghost use Rattle.exchanges.specs.Exchanges.{Exchange};
ghost use Rattle.actor_calls.specs.declared.invoke.Invoke.{Invoke};
ghost use Rattle.actor_calls.specs.PeerReads.{CanBeTold, told_to_peer};
ghost use Rattle.actor_calls.specs.Serving.{IsInvoked};
ghost use Rattle.call_names.specs.declared.name.CallName.{CallName};
ghost use Rattle.sidecar_node.specs.declared.node.SidecarNode.{SidecarNode};
ghost use Rattle.sidecar_node.specs.Entries.{NodeEntry};
ghost use Rattle.sidecar_node.specs.Nodes.{part_at};
ghost use Rattle.actor_calls.specs.Serving.{IsForwardServed};
ghost use Rattle.actor_calls.specs.Causes.{AreCallEntries, AnswerHasCause, IsCompleted, IsItsAnswer};
ghost use Rattle.actor_calls.specs.ForwardCauses.{AreForwardEntries, ForwardHasCause};

use actor_names::{address_law, member_law};

/// What `write_api` tells a peer is what `read_peer_reply` reads: a refusal by its word, the owner of an actor, and
/// everything else as the application's reply.
pub fn peer_law()
    ensures { (reply : ApiReply) → CanBeTold reply → reply_reading (response_of Peer reply) ≡ told_to_peer reply }
{
    address_law();
    member_law();
}

/// What the relation of a served call guarantees. Its entries are Asks, Polls and Ends, and no others; each Ask is of its
/// actor, under the chain that the request told. Its answer has its cause in this call, and it has no answers but a reply, an
/// owner and a refusal. If the application's reply was read without a fault and the End of its turn was answered Ended, the
/// call is answered with this reply, unless memory ran out.
pub fn call_law()
    ensures entries { (part : ℕ) (after : Seats) (me : Member) (app : Address) (q : Invoke) (request : HttpRequest) (side : Side) (first last : ℕ) (es : List PartEntry) (xs ys : List Exchange) (answer : ApiReply)
        → IsInvoked part after me app q request side first last es xs ys answer → AreCallEntries q es }
    ensures causes { (part : ℕ) (after : Seats) (me : Member) (app : Address) (q : Invoke) (request : HttpRequest) (side : Side) (first last : ℕ) (es : List PartEntry) (xs ys : List Exchange) (answer : ApiReply)
        → IsInvoked part after me app q request side first last es xs ys answer → AnswerHasCause part after es xs ys answer }
    ensures completes { (part : ℕ) (after : Seats) (me : Member) (app : Address) (q : Invoke) (request : HttpRequest) (side : Side) (first last : ℕ) (es : List PartEntry) (xs ys : List Exchange) (answer : ApiReply)
        → IsInvoked part after me app q request side first last es xs ys answer → (reply : HttpResponse) → IsCompleted es xs reply → IsItsAnswer reply answer }
{}

/// What the relation of a forwarded call guarantees. Its entries are one Begin, and behind a Begin that is answered New
/// those of the call, and then one Finish; behind any other there are none. Each of its answers has its cause: a refusal that
/// names the book is that of this call's Begin, a response is the one that was kept of an earlier request with this name or
/// that of the call's own answer, which has its cause in this call, and it has no answers but these.
pub fn forward_law()
    ensures entries { (node : SidecarNode) (after : Seats) (app : Address) (side : Side) (request : HttpRequest) (call : CallName) (q : Invoke) (first last : ℕ) (ns : List NodeEntry) (xs ys : List Exchange) (answer : ApiReply)
        → IsForwardServed node after app side request call q first last ns xs ys answer → AreForwardEntries (part_at node q.actor) call q ns }
    ensures causes { (node : SidecarNode) (after : Seats) (app : Address) (side : Side) (request : HttpRequest) (call : CallName) (q : Invoke) (first last : ℕ) (ns : List NodeEntry) (xs ys : List Exchange) (answer : ApiReply)
        → IsForwardServed node after app side request call q first last ns xs ys answer → ForwardHasCause (part_at node q.actor) after call side ns xs ys answer }
{}
