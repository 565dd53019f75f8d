// What holds in every run of steps and restarts from the opening state.
ghost use Rattle.std.specs.Prelude.{◌≡◌, ℕ, List, None};
ghost use Rattle.place_table.specs.Hosts.{other_space_fault, table_fault};
ghost use Rattle.round_core.specs.declared.event.PlaceEvent.{PlaceEvent};
ghost use Rattle.std.specs.declared.result.Result.TheVariants.{Ok};
ghost use Rattle.round_core.specs.Room.{RoomState, new_room, room_step, room_restarted};
ghost use Rattle.round_core.specs.Settled.{IsSettled, IsRefusal};
ghost use Rattle.round_core.specs.Records.{room_restored};
ghost use Rattle.round_core.specs.Sound.{IsRoomSound, RunsFewTypes};
ghost use Rattle.round_core.specs.Runs.{RunEvent, ForgetsNothing, run_state, run_records, state_after};

/// The records that a run leaves are enough: restoring them gives the restart of its last state.
pub fn restore_law()
    ensures { (run : List RunEvent) (now : ℕ) → room_restored (run_records new_room run) now ≡ Ok (room_restarted (run_state new_room run) now) }
{}

/// No event and no restart of a run forgets anything: greatest boots and versions never fall, and a new member has a
/// boot above the greatest one that its node had.
pub fn memory_law()
    ensures { (run : List RunEvent) (event : RunEvent) → ForgetsNothing (run_state new_room run) (state_after (run_state new_room run) event) }
{}

/// In each state of a run rounds have nothing left to do: no stage can go on, and no round can start. So a room has to
/// go on only if something happens in it.
pub fn settled_law()
    ensures { (run : List RunEvent) → IsSettled (run_state new_room run) }
{}

/// In each state of a run the room is sound: its members, known nodes and versions are in their ranges and in order.
pub fn room_sound_law()
    ensures { (run : List RunEvent) → IsRoomSound (run_state new_room run) }
{}

/// If each Register of a run brings a host of at most 32 types, no table of hosts of one space that is fixed in it is
/// refused for any reason but want of memory.
pub fn table_law()
    ensures { (run : List RunEvent) (space : List ℕ) → RunsFewTypes run → other_space_fault space (run_state new_room run).table ≡ None → table_fault space (run_state new_room run).table ≡ None }
{}

/// A refused event changes nothing, in any state.
pub fn refused_law()
    ensures { (s : RoomState) (event : PlaceEvent) (now : ℕ) → IsRefusal (room_step s event now).reply → (room_step s event now).state ≡ s }
{}
