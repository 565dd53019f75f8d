// What the definition of a turn with the reminders guarantees.
ghost use Rattle.std.specs.Prelude.{ℕ, List, Option, None};
ghost use Rattle.actor_names.specs.declared.address.Address.{Address};
ghost use Rattle.part_model.specs.Receipts.{PartReply};
ghost use Rattle.sidecar_node.specs.declared.node.SidecarNode.{SidecarNode};
ghost use Rattle.reminder_turns.specs.declared.ends.TickEnd.{TickEnd};
ghost use Rattle.reminder_turns.specs.declared.standing.Stand.TheVariants.{On};
ghost use Rattle.reminder_turns.specs.Pages.{Page, GoesOn};
ghost use Rattle.reminder_turns.specs.Laws.{IsListing, PagesSettled, EndsCall, PagesReplied, IsPartEnd, PartCause, pages_got, StoreCause};

/// If nothing ended the call before its last page, each page was asked for behind the last entry of the one before, each
/// reminder of each page had its run, and the last page was empty; each report that was owed was made, and the store
/// answered it by a next moment. A reply of a part that says that it has stopped or is spent ends the call, by `Stopped`,
/// by `Spent` or for want of memory; `Stopped` goes back to such a reply, and `Spent` to one or to a gate that took no
/// entry. An end by the store goes back to what its last exchange came to.
pub fn reminder_law()
    ensures listed { (node : SidecarNode) (app store : Address) (first last : ℕ) (pages : List Page) → GoesOn node app store first (On None) pages last None → IsListing None pages }
    ensures reported { (node : SidecarNode) (app store : Address) (first last : ℕ) (pages : List Page) → GoesOn node app store first (On None) pages last None → PagesSettled pages }
    ensures replied { (node : SidecarNode) (app store : Address) (first last : ℕ) (pages : List Page) (stop : Option TickEnd) (reply : PartReply) → GoesOn node app store first (On None) pages last stop → EndsCall reply → PagesReplied reply pages → IsPartEnd stop }
    ensures parts { (node : SidecarNode) (app store : Address) (first last : ℕ) (pages : List Page) (stop : Option TickEnd) → GoesOn node app store first (On None) pages last stop → PartCause pages stop }
    ensures stores { (node : SidecarNode) (app store : Address) (first last : ℕ) (pages : List Page) (stop : Option TickEnd) → GoesOn node app store first (On None) pages last stop → StoreCause (pages_got pages) stop }
{}
