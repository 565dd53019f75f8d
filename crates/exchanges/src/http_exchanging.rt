// One exchange with an address.
ghost use Rattle.std.specs.Prelude.{◌≡◌, List, IfOk};
ghost use Rattle.actor_ports.specs.Port.{HasCause};
ghost use Rattle.actor_ports.specs.Traffic.{Dials, TakesRoom};
ghost use Rattle.http_edge.specs.Texts.{request_text};
ghost use Rattle.exchanges.specs.Exchanges.{Exchange, Dialling};
ghost use Rattle.exchanges.specs.Replies.{IsHttpExchange, place_at};

use actor_names::Address;
use actor_ports::{Dial, PortError, Waits};
use http_edge::{EdgeError, HttpRequest, HttpResponse, exchange};
use std::alloc::Global;

// Dials the address; the link waits so, or as the dialler's links do.
pub(crate) fn dial_at<L: Dial>(
    dialler: &mut L,
    at: &Address,
    waits: Option<Waits>,
) -> Result<L::Link, PortError>
    ensures fresh { IfOk result (λ link. L.Link.read_faults link ≡ 0) }
    ensures dials { Dials L.Link.read_traffic (L.dialled dialler.old) (L.dialled dialler.new) (place_at at.now) result }
    ensures room { TakesRoom (L.room dialler.old) (L.room dialler.new) result }
    ensures cause { HasCause (L.dial_faults dialler.old) (L.dial_faults dialler.new) result }
{
    match waits {
        Some(waits) => dialler.dial_waiting(at.ip, at.port, waits),
        None => dialler.dial(at.ip, at.port),
    }
}

/// Dials the address, makes one exchange over the link and gives the link back. The link waits so, where the dialler can see
/// to that; for `None` it waits as the dialler's links do. If the dial failed, the answer is `ConnFault`.
pub fn exchange_waiting<L: Dial>(
    alloc: Global,
    dialler: &mut L,
    at: &Address,
    waits: Option<Waits>,
    request: &HttpRequest,
) -> Result<HttpResponse, EdgeError>
    ensures { (xs : List Exchange)
        × IsHttpExchange (request_text request.now) (place_at at.now) xs result
        × Dialling xs (L.dialled dialler.old) (L.dialled dialler.new) (L.dial_faults dialler.old) (L.dial_faults dialler.new) }
{
    let mut link = match dial_at(dialler, at, waits) {
        Ok(link) => link,
        Err(PortError::Failed) => return Err(EdgeError::ConnFault),
        Err(PortError::OutOfMemory) => return Err(EdgeError::OutOfMemory),
    };
    let got = exchange(alloc, request, &mut link);
    dialler.done(link);
    got
}

/// Makes one exchange as `exchange_waiting` does, over a link that waits as the dialler's links do.
pub fn exchange_at<L: Dial>(
    alloc: Global,
    dialler: &mut L,
    at: &Address,
    request: &HttpRequest,
) -> Result<HttpResponse, EdgeError>
    ensures { (xs : List Exchange)
        × IsHttpExchange (request_text request.now) (place_at at.now) xs result
        × Dialling xs (L.dialled dialler.old) (L.dialled dialler.new) (L.dial_faults dialler.old) (L.dial_faults dialler.new) }
{
    exchange_waiting(alloc, dialler, at, None, request)
}
