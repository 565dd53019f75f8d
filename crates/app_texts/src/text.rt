// The text of a call, written at once.
ghost use Rattle.std.specs.Prelude.{◌≡◌, ◌++◌, codes, OnOk};
ghost use Rattle.std.specs.Option.{option_copied};
ghost use Rattle.app_texts.specs.Texts.{line, line_if, host_line, close_line, call_lines, method_path, message_start, sized};

use crate::escaping::add_method_path;
use crate::fields::add;
use actor_names::{ActorKey, Address, ChainId};
use call_names::{add_address, add_decimal};
use lists_and_limits::OutOfMemory;
use std::alloc::Global;

fn add_line(name: &[u8], value: &[u8], into: &mut Vec<u8>) -> Result<(), OutOfMemory>
    ensures { OnOk result (into.new.items ≡ into.old.items ++ line name.now value.now) }
{
    add(name, into)?;
    add(b": ", into)?;
    add(value, into)?;
    add(b"\r\n", into)
}

// Appends a line if it has a value.
fn add_line_if(name: &[u8], value: Option<&[u8]>, into: &mut Vec<u8>) -> Result<(), OutOfMemory>
    ensures { OnOk result (into.new.items ≡ into.old.items ++ line_if name.now (option_copied value.entry)) }
{
    match value {
        None => Ok(()),
        Some(value) => add_line(name, value, into),
    }
}

fn add_chain_line(chain: Option<&ChainId>, into: &mut Vec<u8>) -> Result<(), OutOfMemory>
    ensures { OnOk result (into.new.items ≡ into.old.items ++ line_if (codes "Dapr-Reentrancy-Id") (option_copied chain.entry)) }
{
    match chain {
        None => Ok(()),
        Some(chain) => add_line(b"Dapr-Reentrancy-Id", chain.as_slice(), into),
    }
}

fn add_host_line(at: &Address, into: &mut Vec<u8>) -> Result<(), OutOfMemory>
    ensures { OnOk result (into.new.items ≡ into.old.items ++ host_line at.now) }
{
    add(b"Host", into)?;
    add(b": ", into)?;
    add_address(into, at)?;
    add(b"\r\n", into)
}

// Appends the lines of a call.
pub(crate) fn add_call_lines(
    app: &Address,
    content: Option<&[u8]>,
    chain: Option<&ChainId>,
    into: &mut Vec<u8>,
) -> Result<(), OutOfMemory>
    ensures { OnOk result (into.new.items ≡ into.old.items ++ call_lines app.now (option_copied content.entry) (option_copied chain.entry)) }
{
    add_host_line(app, into)?;
    add_line_if(b"Content-Type", content, into)?;
    add_chain_line(chain, into)?;
    add(b"Connection: close\r\n", into)
}

// Appends the request line of a call.
pub(crate) fn add_call_start(
    alloc: Global,
    actor: &ActorKey,
    method: &[u8],
    into: &mut Vec<u8>,
) -> Result<(), OutOfMemory>
    ensures { OnOk result (into.new.items ≡ into.old.items ++ message_start (codes "PUT") (method_path actor.now method.now)) }
{
    add(b"PUT", into)?;
    add(b" ", into)?;
    add_method_path(alloc, actor, method, into)?;
    add(b" HTTP/1.1\r\n", into)
}

// Appends a body with its length before it.
pub(crate) fn add_sized(body: &[u8], into: &mut Vec<u8>) -> Result<(), OutOfMemory>
    ensures { OnOk result (into.new.items ≡ into.old.items ++ sized body.now) }
{
    add(b"Content-Length: ", into)?;
    add_decimal(into, body.len() as u64)?;
    add(b"\r\n\r\n", into)?;
    add(body, into)
}
