// Fields of requests: those that are made, and the first value of those that came.
ghost use Rattle.std.specs.Prelude.{◌≡◌, ◌++◌, false, IfOk, OnOk};
ghost use Rattle.std.specs.Option.{option_copied};
ghost use Rattle.http_edge.specs.Texts.{is_framing, field_lines};
ghost use Rattle.app_texts.specs.Texts.{line, line_if, first_value};

use http_edge::{Bytes, HttpField};
use lists_and_limits::OutOfMemory;
use std::alloc::Global;

pub(crate) fn add(bytes: &[u8], into: &mut Vec<u8>) -> Result<(), OutOfMemory>
    ensures { OnOk result (into.new.items ≡ into.old.items ++ bytes.now) }
{
    match into.extend_from_slice(bytes) {
        Ok(()) => Ok(()),
        Err(_) => Err(OutOfMemory),
    }
}

/// The value of the first field with this name, which is compared without regard to case.
pub fn first_value<'a>(name: &[u8], fields: &'a [HttpField]) -> Option<&'a [u8]>
    ensures { option_copied result ≡ first_value name.now fields.now }
{
    for field in fields {
        if field.name.as_slice().eq_ignore_ascii_case(name) {
            return Some(field.value.as_slice());
        }
    }
    None
}

fn make_field(alloc: Global, name: &[u8], value: &[u8]) -> Result<HttpField, OutOfMemory>
    ensures { IfOk result (λ field. (field.name ≡ name.now) × (field.value ≡ value.now)) }
{
    let name = Bytes::from_slice(alloc, name)?;
    let value = Bytes::from_slice(alloc, value)?;
    Ok(HttpField { name, value })
}

// Appends a field.
#[tactic(auto, using(crate::proofs::FieldLines::added))]
pub(crate) fn add_field(
    alloc: Global,
    name: &[u8],
    value: &[u8],
    fields: &mut Vec<HttpField>,
) -> Result<(), OutOfMemory>
    requires { is_framing name.now ≡ false }
    ensures { OnOk result (field_lines fields.new.items ≡ field_lines fields.old.items ++ line name.now value.now) }
{
    let field = make_field(alloc, name, value)?;
    fields.push(field)?;
    Ok(())
}

// Appends a field if it has a value.
pub(crate) fn add_field_if(
    alloc: Global,
    name: &[u8],
    value: Option<&[u8]>,
    fields: &mut Vec<HttpField>,
) -> Result<(), OutOfMemory>
    requires { is_framing name.now ≡ false }
    ensures { OnOk result (field_lines fields.new.items ≡ field_lines fields.old.items ++ line_if name.now (option_copied value.entry)) }
{
    match value {
        None => Ok(()),
        Some(value) => add_field(alloc, name, value, fields),
    }
}
