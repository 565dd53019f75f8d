// Reads payloads.
ghost use Rattle.std.specs.Prelude.{◌≡◌, IfOk};
ghost use Rattle.store_payloads.specs.Fits.{PayloadFits};
ghost use Rattle.store_payloads.specs.Gives.{GivesPart};
ghost use Rattle.store_payloads.specs.Payloads.{body_reading, payload_reading};

use crate::error::PayloadError;
use crate::payload::{PayloadBody, StorePayload};
use crate::rows::whole_row;
use frame_wire::{command_law, read_command};
use std::alloc::Global;

const END_OF_MOMENTS: u64 = 253_370_764_800_000;

// The least kind of a row.
const FIRST_ROW: u8 = 128;

fn read_body(alloc: Global, bytes: &[u8]) -> Result<PayloadBody, PayloadError>
    ensures { GivesPart result (body_reading bytes.now) }
{
    let [kind, ..] = bytes else {
        return Err(PayloadError::NoReading);
    };
    if *kind < FIRST_ROW {
        let command = read_command(alloc, bytes)?;
        return Ok(PayloadBody::Command { command });
    }
    let row = whole_row(alloc, bytes)?;
    Ok(PayloadBody::Row { row })
}

#[tactic(auto, unfolding(crate::specs::Payloads::payload_reading))]
fn read_parts(alloc: Global, payload: &[u8]) -> Result<StorePayload, PayloadError>
    ensures { GivesPart result (payload_reading payload.now) }
{
    let [a, b, c, d, e, f, g, h, bytes @ ..] = payload else {
        return Err(PayloadError::NoReading);
    };
    let now = u64::from_be_bytes([*a, *b, *c, *d, *e, *f, *g, *h]);
    if now >= END_OF_MOMENTS {
        return Err(PayloadError::NoReading);
    }
    let body = read_body(alloc, bytes)?;
    Ok(StorePayload { now, body })
}

/// Reads a payload. `NoReading` exactly if it isn't the spelling of a moment before 9999 and a command or a row. What
/// is read may be written.
pub fn read_payload(alloc: Global, payload: &[u8]) -> Result<StorePayload, PayloadError>
    ensures reading { GivesPart result (payload_reading payload.now) }
    ensures fits { IfOk result (λ p. PayloadFits p) }
{
    command_law();
    read_parts(alloc, payload)
}
