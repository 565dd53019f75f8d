// What holds in every run of steps and restarts from the opening placement.
ghost use Rattle.std.specs.Prelude.{◌≡◌, ◌↔◌, ℕ, List, []};
ghost use Rattle.std.specs.declared.result.Result.TheVariants.{Ok};
ghost use Rattle.round_core.specs.declared.event.PlaceEvent.{PlaceEvent};
ghost use Rattle.round_core.specs.Runs.{RunEvent};
ghost use Rattle.round_core.specs.Settled.{IsRefusal};
ghost use Rattle.placement_core.specs.Entries.{placement_record};
ghost use Rattle.placement_core.specs.Placement.{PlacementState, new_placement, placement_step, placement_restarted};
ghost use Rattle.placement_core.specs.Restores.{placement_restored};
ghost use Rattle.placement_core.specs.Runs.{AreRooms, AreSettled, SameRooms, run_records, run_state};
ghost use Rattle.placement_core.specs.Sound.{AreOfSpaces, HasTable, IsPlacementSound};
ghost use Rattle.round_core.specs.Sound.{RunsFewTypes};
ghost use Rattle.std.specs.List.{AllByRecursion};

/// In each state of a run, rounds have nothing left to do in any room: no stage can go on, and no round can start. So
/// rounds have to go on only in the rooms in which something happens.
pub fn rooms_settled_law()
    ensures { (run : List RunEvent) → AreSettled (run_state new_placement run).rooms }
{}

/// In each state of a run the placement is sound: its rooms are, they are in order, and at most 64.
pub fn rooms_sound_law()
    ensures { (run : List RunEvent) → IsPlacementSound (run_state new_placement run) }
{}

/// In each state of a run every member, and every host of a table that was fixed, is of its room's space.
pub fn own_space_law()
    ensures { (run : List RunEvent) → AreOfSpaces (run_state new_placement run).rooms }
{}

/// If each Register of a run brings a host of at most 32 types, every table that was fixed last in a room can be built.
pub fn tables_law()
    ensures { (run : List RunEvent) → RunsFewTypes run → AllByRecursion HasTable (run_state new_placement run).rooms }
{}

/// The records that a run leaves are enough: none of them is bad, and restoring them gives the restart of the run's last
/// state. So over a restart no version is used twice, and no boot is taken twice.
pub fn replayed_law()
    ensures { (run : List RunEvent) (now : ℕ) → placement_restored (run_records new_placement run) now ≡ Ok (placement_restarted (run_state new_placement run) now) }
{}

/// A step leaves no record exactly if a restart keeps the same of each room as before, and no room was made. The rooms of
/// every placement are in order (clause `order` of `Placement::rooms`).
pub fn durable_law()
    ensures { (s : PlacementState) (event : PlaceEvent) (now : ℕ) → AreRooms s.rooms → (placement_record s event now ≡ []) ↔ SameRooms s.rooms (placement_step s event now).state.rooms }
{}

/// A refused event changes nothing, in any rooms that are in order.
pub fn placement_refused_law()
    ensures { (s : PlacementState) (event : PlaceEvent) (now : ℕ) → AreRooms s.rooms → IsRefusal (placement_step s event now).reply → (placement_step s event now).state ≡ s }
{}
