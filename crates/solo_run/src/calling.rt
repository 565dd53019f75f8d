// A call of an actor: its cell is looked up, or made by its first call.
ghost use Rattle.std.specs.Prelude.{◌≡◌, ◌≤◌, ◌++◌, ◌∷◌, [], false, None, Some, length, slice_get, All, IfOk, OnOk, OnErr, is_ok, option_copied};
ghost use Rattle.turn_core.specs.Cell.{is_in_cell, greatest_depth, new_cell};
ghost use Rattle.solo_run.specs.Interner.{AreDistinct, place_in};
ghost use Rattle.solo_run.specs.World.{cell_for, put_cell, ask_at, ask_outcome};
ghost use Rattle.solo_run.specs.WorldTold.{actors_told, KeepsActors};

use crate::interner::Interner;
use crate::turns::{Admission, ask_cell};
use crate::types::Types;
use actor_names::{OutOfMemory, key_kind};
use std::alloc::Global;
use turn_core::Cell;

/// Makes the call at a new cell, which comes last.
fn ask_first(
    alloc: Global,
    depth: u32,
    keys: &mut Interner,
    cells: &mut Vec<Cell>,
    number: u64,
    key: &[u8],
    chain: Option<&[u8]>,
) -> Result<Admission, OutOfMemory>
    requires new { place_in key.now keys.old ≡ None }
    requires shallow { depth ≤ greatest_depth }
    ensures keys { OnOk result (keys.new ≡ keys.old ++ key.now ∷ []) }
    ensures cells { OnOk result (cells.new.items ≡ cells.old.items ++ (ask_at (new_cell depth) number (option_copied chain.entry)).cell ∷ []) }
    ensures outcome { IfOk result (λ a. a.outcome ≡ ask_outcome number (ask_at (new_cell depth) number (option_copied chain.entry)).answer) }
    ensures admitted { IfOk result (λ a. a.admitted ≡ is_ok (ask_at (new_cell depth) number (option_copied chain.entry)).answer) }
    ensures unchanged { OnErr result ((keys.new ≡ keys.old) × (cells.new.items ≡ cells.old.items)) }
{
    let mut cell = new_cell(alloc, depth)?;
    let admission = ask_cell(alloc, &mut cell, number, chain)?;
    cells.reserve(1)?;
    keys.add(alloc, key)?;
    cells.push(cell).unwrap();
    Ok(admission)
}

/// A new cell.
fn new_cell(alloc: Global, depth: u32) -> Result<Cell, OutOfMemory>
    requires { depth ≤ greatest_depth }
    ensures { IfOk result (λ cell. cell ≡ new_cell depth) }
{
    match Cell::new(alloc, depth) {
        Ok(cell) => Ok(cell),
        Err(_) => Err(OutOfMemory),
    }
}

/// Makes the call at the actor's cell, which is likely to be at the place `near`; also gives the place of the cell.
pub(crate) fn ask_actor(
    alloc: Global,
    types: &Types,
    keys: &mut Interner,
    cells: &mut Vec<Cell>,
    near: usize,
    number: u64,
    key: &[u8],
    chain: Option<&[u8]>,
) -> Result<(usize, Admission), OutOfMemory>
    requires each { length cells.old.items ≡ length keys.old }
    requires distinct { AreDistinct keys.old }
    requires later { All (λ cell. is_in_cell number cell ≡ false) cells.old.items }
    ensures actors { OnOk result (actors_told keys.new cells.new.items ≡ put_cell key.now (ask_at (cell_for types.now key.now (actors_told keys.old cells.old.items)) number (option_copied chain.entry)).cell (actors_told keys.old cells.old.items)) }
    ensures outcome { IfOk result (λ r. r.1.outcome ≡ ask_outcome number (ask_at (cell_for types.now key.now (actors_told keys.old cells.old.items)) number (option_copied chain.entry)).answer) }
    ensures admitted { IfOk result (λ r. r.1.admitted ≡ is_ok (ask_at (cell_for types.now key.now (actors_told keys.old cells.old.items)) number (option_copied chain.entry)).answer) }
    ensures place { IfOk result (λ r. slice_get keys.new r.0 ≡ Some key.now) }
    ensures below { IfOk result (λ r. r.0 ≤ length keys.old) }
    ensures keeps { OnOk result (KeepsActors keys.old cells.old.items keys.new cells.new.items (ask_at (cell_for types.now key.now (actors_told keys.old cells.old.items)) number (option_copied chain.entry)).cell) }
    ensures unchanged { OnErr result ((keys.new ≡ keys.old) × (cells.new.items ≡ cells.old.items)) }
{
    match keys.find_near(key, near) {
        Some(at) => {
            let admission = ask_cell(alloc, &mut cells[at], number, chain)?;
            Ok((at, admission))
        }
        None => {
            let at = keys.len();
            let depth = types.depth_of(key_kind(key));
            let admission = ask_first(alloc, depth, keys, cells, number, key, chain)?;
            Ok((at, admission))
        }
    }
}
