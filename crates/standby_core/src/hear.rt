// A call's text sent, and the answer to it read.
ghost use Rattle.std.specs.Prelude.{◌≡◌, ◌≢◌, ◌↔◌, ◌<◌, ◌≤◌, ◌++◌, [], List, ℕ, length, vec_len, OnErr, IsTrue};
ghost use Rattle.actor_ports.specs.Port.{HasCause};
ghost use Rattle.http_edge.specs.Carry.{Over};
ghost use Rattle.standby_core.specs.Telling.{done_bytes};
ghost use Rattle.standby_core.specs.Asking.{Hears, IsAsked};

use crate::wire::{Wire, receive, send};
use actor_ports::PortError;

// The bytes of a frame that is MirrorDone.
const DONE: [u8; 5] = [0, 0, 0, 1, 67];

// Whether these bytes are the answer that a call was done.
fn is_done(bytes: &[u8]) -> bool
    ensures { IsTrue result ↔ (bytes.now ≡ done_bytes) }
{
    bytes == DONE.as_slice()
}

// Reads until there are this many bytes, or the input ends.
fn fill<L: Wire>(link: &mut L, bytes: &mut Vec<u8>, total: usize) -> Result<(), PortError>
    requires { vec_len bytes.old ≤ total }
    ensures over { (got : List ℕ) × (bytes.new.items ≡ bytes.old.items ++ got) × Over (L.read_traffic link.old) (L.read_traffic link.new) (record { read = got; written = [] }) }
    ensures cut { OnErr result (length bytes.new.items < total) }
    ensures cause { HasCause (L.read_faults link.old) (L.read_faults link.new) result }
{
    while bytes.len() < total {
        let most = total - bytes.len();
        let count = match receive(link, bytes, most) {
            Err(error) => return Err(error),
            Ok(count) => count,
        };
        if count == 0 {
            return Ok(());
        }
    }
    Ok(())
}

// Reads an answer, and tells whether it says that the call was done.
fn hear<L: Wire>(link: &mut L, heard: &mut Vec<u8>) -> Result<bool, PortError>
    ensures hears { Hears (L.read_traffic link.old) (L.read_traffic link.new) result }
    ensures cause { HasCause (L.read_faults link.old) (L.read_faults link.new) result }
{
    heard.clear();
    match fill(link, heard, DONE.len()) {
        Err(error) => Err(error),
        Ok(()) => Ok(is_done(heard.as_slice())),
    }
}

/// Sends a text and reads the answer, and tells whether that says that the call was done.
pub(crate) fn ask<L: Wire>(
    link: &mut L,
    text: &[u8],
    heard: &mut Vec<u8>,
) -> Result<bool, PortError>
    ensures asked { IsAsked text.now (L.read_traffic link.old) (L.read_traffic link.new) result }
    ensures cause { HasCause (L.read_faults link.old) (L.read_faults link.new) result }
{
    match send(link, text) {
        Err(error) => Err(error),
        Ok(()) => hear(link, heard),
    }
}
