// What holds for every list of calls.
ghost use Rattle.std.specs.Prelude.{◌≡◌, ◌≤◌, ℕ, List, []};
ghost use Rattle.turn_core.specs.Cell.{new_cell, greatest_depth};
ghost use Rattle.turn_core.specs.CellMarks.{CellEvent, AllMayHappen, TurnsIsolated, open_after, run_marks, state_after};
ghost use Rattle.turn_core.specs.CellSound.{IsCellSound};

/// For every list of calls on one cell, each made with its requirements met: turns that overlap carry the same
/// chain, no more turns are open at once than the depth allows, the marks say which turns are open, and the cell
/// stays sound.
pub fn turns_isolated_law()
    ensures isolated { (depth : ℕ) (events : List CellEvent) → depth ≤ greatest_depth → AllMayHappen (new_cell depth) events →
        TurnsIsolated depth (run_marks (new_cell depth) events) }
    ensures told { (depth : ℕ) (events : List CellEvent) → depth ≤ greatest_depth → AllMayHappen (new_cell depth) events →
        open_after [] (run_marks (new_cell depth) events) ≡ (state_after (new_cell depth) events).turns }
    ensures sound { (depth : ℕ) (events : List CellEvent) → depth ≤ greatest_depth → AllMayHappen (new_cell depth) events →
        IsCellSound (state_after (new_cell depth) events) }
{}
