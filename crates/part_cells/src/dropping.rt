// A slot is emptied.
ghost use Rattle.std.specs.Prelude.{◌≡◌, None, IfSome};
ghost use Rattle.std.specs.BTreeMap.{is_at};
ghost use Rattle.std.specs.Map.{remove_entry};
ghost use Rattle.slab.specs.Slab.{get, Updates};
ghost use Rattle.actor_names.specs.Same.{key_cmp};

use crate::hashed_cell::HashedCell;
use actor_names::ActorKey;
use slab::Slab;
use std::collections::BTreeMap;

/// Drops the cell in the slot, with its place; takes no memory.
pub(crate) fn drop_at(
    slots: &mut Slab<HashedCell>,
    places: &mut BTreeMap<ActorKey, usize>,
    slot: usize,
)
    ensures slots { Updates slots.old slots.new slot None }
    ensures places { IfSome (get slots.old slot) (λ c. places.new.entries ≡ remove_entry (is_at (key_cmp c.key)) places.old.entries) }
{
    let Some(hashed) = slots.get(slot) else {
        return;
    };
    let _place = places.remove(&hashed.cell.key);
    let _cell = slots.try_remove(slot);
}
