// One exchange with an address, of a request whose text is there already.
ghost use Rattle.std.specs.Prelude.{◌≡◌, List};
ghost use Rattle.exchanges.specs.Exchanges.{Exchange, Dialling};
ghost use Rattle.exchanges.specs.Replies.{IsHttpExchange, place_at};

use crate::http_exchanging::dial_at;
use actor_names::Address;
use actor_ports::{Dial, PortError};
use http_edge::{EdgeError, HttpResponse, exchange_text};
use std::alloc::Global;

/// Makes one exchange as `exchange_at` does, of a request that has this text.
pub fn exchange_text_at<L: Dial>(
    alloc: Global,
    dialler: &mut L,
    at: &Address,
    text: &[u8],
) -> Result<HttpResponse, EdgeError>
    ensures { (xs : List Exchange)
        × IsHttpExchange text.now (place_at at.now) xs result
        × Dialling xs (L.dialled dialler.old) (L.dialled dialler.new) (L.dial_faults dialler.old) (L.dial_faults dialler.new) }
{
    let mut link = match dial_at(dialler, at, None) {
        Ok(link) => link,
        Err(PortError::Failed) => return Err(EdgeError::ConnFault),
        Err(PortError::OutOfMemory) => return Err(EdgeError::OutOfMemory),
    };
    let got = exchange_text(alloc, text, &mut link);
    dialler.done(link);
    got
}
