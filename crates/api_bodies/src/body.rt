// The value of a body, and the text of a value that is kept.
ghost use Rattle.std.specs.Prelude.{◌≡◌};
ghost use Rattle.std.specs.String.{string_bytes};
ghost use Rattle.api_bodies.specs.Reading.{Gives};
ghost use Rattle.api_bodies.specs.Records.{body_reading, kept_text};

use crate::error::BodyError;
use crate::fault::{Fault, malformed};
use json_text::{Json, JsonError, JsonRef};
use std::alloc::Global;

/// The value of a body.
#[tactic(auto, using(crate::proofs::Utf8::body_read, crate::proofs::Utf8::body_not_read))]
pub(crate) fn body_value(alloc: Global, body: &[u8]) -> Result<Json, Fault>
    ensures { Gives (λ v. v) result (body_reading body.now) }
{
    match Json::read(alloc, body) {
        Ok(json) => Ok(json),
        Err(JsonError::OutOfMemory) => Err(Fault::Memory),
        Err(JsonError::NotJson) => Err(malformed()),
    }
}

/// The text of a value that is kept.
pub(crate) fn kept_text(alloc: Global, value: &JsonRef<'_>) -> Result<String, Fault>
    ensures { Gives string_bytes result (kept_text value.now) }
{
    if value.has_other_number() {
        return Err(Fault::Refused {
            error: BodyError::OtherNumber,
        });
    }
    let bytes = value.to_text(alloc)?;
    Ok(String::from_utf8(bytes).unwrap())
}
