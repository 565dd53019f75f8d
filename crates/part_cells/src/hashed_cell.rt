// A cell beside the hash of its actor's id.
use part_model::ActorCell;
use std::marker::Model;

/// A cell, and the `key_hash` of its actor's id, taken once. Contracts see the cell alone.
#[derive(Drop)]
pub(crate) struct HashedCell {
    pub(crate) cell: ActorCell,
    pub(crate) hash: u64,
}

impl Model for HashedCell {
    ghost use Rattle.std.specs.Prelude.{◌≡◌};
    ghost use Rattle.place_table.specs.Hosts.{key_place};
    ghost use Rattle.part_model.specs.declared.actor_cell.ActorCell.{ActorCell};

    ghost Value = { ActorCell };

    ghost view = { λ a. a.cell };

    ghost invariant = { λ a. a.hash ≡ key_place a.cell.key.id };
}
