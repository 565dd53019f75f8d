// The fields of the requests that are made.
ghost use Rattle.std.specs.Prelude.{◌≡◌, ◌++◌, false, IfOk, OnOk};
ghost use Rattle.std.specs.Option.{option_copied};
ghost use Rattle.http_edge.specs.Texts.{field_lines, is_framing};
ghost use Rattle.app_texts.specs.Texts.{line_if, host_line, close_line, call_lines, plain_lines};

use crate::fields::{add_field, add_field_if};
use actor_names::{Address, ChainId};
use call_names::add_address;
use http_edge::{HttpField, HttpFields};
use lists_and_limits::OutOfMemory;
use std::alloc::Global;

pub(crate) fn add_host(
    alloc: Global,
    at: &Address,
    fields: &mut Vec<HttpField>,
) -> Result<(), OutOfMemory>
    ensures { OnOk result (field_lines fields.new.items ≡ field_lines fields.old.items ++ host_line at.now) }
{
    let mut text = Vec::new(alloc);
    add_address(&mut text, at)?;
    add_field(alloc, b"Host", text.as_slice(), fields)
}

pub(crate) fn add_close(alloc: Global, fields: &mut Vec<HttpField>) -> Result<(), OutOfMemory>
    ensures { OnOk result (field_lines fields.new.items ≡ field_lines fields.old.items ++ close_line) }
{
    add_field(alloc, b"Connection", b"close", fields)
}

pub(crate) fn add_chain(
    alloc: Global,
    name: &[u8],
    chain: Option<&ChainId>,
    fields: &mut Vec<HttpField>,
) -> Result<(), OutOfMemory>
    requires { is_framing name.now ≡ false }
    ensures { OnOk result (field_lines fields.new.items ≡ field_lines fields.old.items ++ line_if name.now (option_copied chain.entry)) }
{
    match chain {
        None => Ok(()),
        Some(chain) => add_field(alloc, name, chain.as_slice(), fields),
    }
}

// The fields of a call.
pub(crate) fn call_fields(
    alloc: Global,
    app: &Address,
    content: Option<&[u8]>,
    chain: Option<&ChainId>,
) -> Result<HttpFields, OutOfMemory>
    ensures { IfOk result (λ fields. field_lines fields ≡ call_lines app.now (option_copied content.entry) (option_copied chain.entry)) }
{
    let mut fields = Vec::new(alloc);
    add_host(alloc, app, &mut fields)?;
    add_field_if(alloc, b"Content-Type", content, &mut fields)?;
    add_chain(alloc, b"Dapr-Reentrancy-Id", chain, &mut fields)?;
    add_close(alloc, &mut fields)?;
    Ok(HttpFields::from_vec(fields))
}

// The fields of a request that carries nothing.
pub(crate) fn plain_fields(alloc: Global, app: &Address) -> Result<HttpFields, OutOfMemory>
    ensures { IfOk result (λ fields. field_lines fields ≡ plain_lines app.now) }
{
    let mut fields = Vec::new(alloc);
    add_host(alloc, app, &mut fields)?;
    add_close(alloc, &mut fields)?;
    Ok(HttpFields::from_vec(fields))
}
