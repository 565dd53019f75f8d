// Rows of a snapshot: how one is read.
ghost use Rattle.std.specs.Prelude.{◌≡◌};
ghost use Rattle.wire_fields.specs.Fields.{whole, number64, maybe};
ghost use Rattle.wire_fields.specs.Gives.{Gives};
ghost use Rattle.store_payloads.specs.Fields.{boot_fields, lane_fields, state_fields, reminder_fields, table_row};

use crate::lanes::numbers_at;
use state_rows::{StateEntry, StateKey, StateValue};
use std::alloc::Global;
use store_tables::TableRow;
use wire_fields::{
    Fault, actor_at, blob_at, boot_at, byte_at, member_at, node_place_at, record_name_at,
    reminder_at, text_at, u64_at,
};

fn absent_at(rest: &mut &[u8]) -> Result<Option<u64>, Fault>
    ensures { Gives (λ x. (x, rest.new.now)) result ((maybe number64).at rest.old.now) }
{
    match *rest {
        [0, others @ ..] => {
            *rest = others;
            Ok(None)
        }
        [1, others @ ..] => {
            *rest = others;
            let moment = u64_at(rest)?;
            Ok(Some(moment))
        }
        _ => Err(Fault::Field { left: rest.len() }),
    }
}

#[tactic(auto, unfolding(crate::specs::Fields::state_fields))]
fn entry_at(alloc: Global, rest: &mut &[u8]) -> Result<StateEntry, Fault>
    ensures { Gives (λ x. (x, rest.new.now)) result (state_fields.at rest.old.now) }
{
    let actor = actor_at(alloc, rest)?;
    let key = text_at(alloc, rest)?;
    let value = blob_at(alloc, rest)?;
    let absent = absent_at(rest)?;
    Ok(StateEntry {
        actor,
        key: StateKey::from_string(key),
        value: StateValue::from_vec(value),
        absent,
    })
}

#[tactic(auto, unfolding(crate::specs::Fields::table_row, crate::specs::Fields::boot_fields, crate::specs::Fields::lane_fields, crate::specs::Fields::reminder_fields))]
fn row_at(alloc: Global, rest: &mut &[u8]) -> Result<TableRow, Fault>
    ensures { Gives (λ x. (x, rest.new.now)) result (table_row.at rest.old.now) }
{
    match *rest {
        [129, others @ ..] => {
            *rest = others;
            let (space, node) = node_place_at(rest)?;
            let boot = boot_at(rest)?;
            Ok(TableRow::Boot { space, node, boot })
        }
        [130, others @ ..] => {
            *rest = others;
            let member = member_at(rest)?;
            let part = byte_at(rest)?;
            let floor = u64_at(rest)?;
            let kept = numbers_at(alloc, rest)?;
            Ok(TableRow::Lane {
                member,
                part,
                floor,
                kept,
            })
        }
        [131, others @ ..] => {
            *rest = others;
            let row = entry_at(alloc, rest)?;
            Ok(TableRow::State { row })
        }
        [132, others @ ..] => {
            *rest = others;
            let actor = actor_at(alloc, rest)?;
            let name = record_name_at(alloc, rest)?;
            let reminder = reminder_at(alloc, rest)?;
            Ok(TableRow::Reminder {
                actor,
                name,
                reminder,
            })
        }
        _ => Err(Fault::Field { left: rest.len() }),
    }
}

/// The row whose spelling is these bytes.
pub(crate) fn whole_row(alloc: Global, bytes: &[u8]) -> Result<TableRow, Fault>
    ensures { Gives (λ x. x) result (whole table_row.at bytes.now) }
{
    let mut rest = bytes;
    let row = row_at(alloc, &mut rest)?;
    if !rest.is_empty() {
        return Err(Fault::Field { left: rest.len() });
    }
    Ok(row)
}
