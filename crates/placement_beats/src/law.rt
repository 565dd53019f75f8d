// What an acknowledgement on the wire rests on.
ghost use Rattle.std.specs.Prelude.{◌≡◌, ◌⊎◌, false, Option, None, Some, Ok, Result, List, ℕ};
ghost use Rattle.actor_names.specs.declared.actor_key.ActorKey.{ActorKey};
ghost use Rattle.actor_names.specs.declared.member.Member.{Member};
ghost use Rattle.place_table.specs.Hosts.{PlacementTable};
ghost use Rattle.part_model.specs.declared.event.Reply.TheVariants as replies;
ghost use Rattle.part_model.specs.Part.{PartState, part_step};
ghost use Rattle.part_model.specs.Receipts.{ReceiptState};
ghost use Rattle.sidecar_node.specs.declared.rounds.RoundEvent.{RoundEvent};
ghost use Rattle.sidecar_node.specs.Rounds.{part_event};
ghost use Rattle.place_table.specs.declared.ack_stage.AckStage.{AckStage};
ghost use Rattle.place_table.specs.declared.host.HostInfo.{HostInfo};
ghost use Rattle.part_model.specs.declared.ack.Ack.{Ack};
ghost use Rattle.member_core.specs.declared.ack.CollectError.{CollectError};
ghost use Rattle.frame_wire.specs.declared.frame.Frame.TheVariants as frames;
ghost use Rattle.sidecar_node.specs.Turns.{Said};
ghost use Rattle.placement_beats.specs.Answers.{Report, receipt_in, receipts_of, hindrance};
ghost use Rattle.placement_beats.specs.Beats.{heartbeat_frame, is_acked};

/// A frame is sent only if each part has answered its Tick with a receipt, and these are the receipts that count. An
/// acknowledgement that is sent is what they justify, is the member's own, and differs from the last one. To each event
/// of a round a part answers with a receipt, or that it has stopped.
pub fn beat_law()
    ensures reported { (ticks : List Said) → hindrance ticks ≡ None → Report ticks (receipts_of ticks) }
    ensures justified { (host : HostInfo) (acked : Option Ack) (answer : Result (Option Ack) CollectError) (member : Member) (stage : AckStage) (version : ℕ) → heartbeat_frame host acked answer ≡ frames.Ack member stage version →
        (member ≡ host.member) × (answer ≡ Ok (Some (record { stage = stage; version = version }))) × (is_acked acked (record { stage = stage; version = version }) ≡ false) }
    ensures answered { (owner : PlacementTable → ActorKey → Option HostInfo) (p : PartState) (event : RoundEvent) →
        ((part_step owner p (part_event event)).reply ≡ replies.Stopped) ⊎ ((r : ReceiptState) × (receipt_in (part_step owner p (part_event event)).reply ≡ Some r)) }
{}
