// The exchange of a timer's callback with the application.
ghost use Rattle.std.specs.Prelude.{◌≡◌, List};
ghost use Rattle.std.specs.Option.{option_copied};
ghost use Rattle.exchanges.specs.Exchanges.{Exchange, Dialling};
ghost use Rattle.exchanges.specs.Replies.{IsHttpExchange, place_at};
ghost use Rattle.clock_turns.specs.Callbacks.{plain_timer_text, timer_call};

use actor_names::{Address, ChainId};
use actor_ports::Dial;
use app_texts::{Callback, timer_request};
use exchanges::exchange_at;
use http_edge::{EdgeError, HttpResponse};
use std::alloc::Global;
use timer_book::{DueTimer, TimerText};

// The bytes of a payload.
fn payload_bytes(payload: &Option<TimerText>) -> Option<&[u8]>
    ensures { option_copied result ≡ payload.now }
{
    match payload {
        None => None,
        Some(text) => Some(text.as_str().as_bytes()),
    }
}

// One exchange of this callback with the application at this address.
fn call_back<L: Dial>(
    alloc: Global,
    app: &mut L,
    at: &Address,
    method: &str,
    callback: &Callback<'_>,
) -> Result<HttpResponse, EdgeError>
    ensures { (xs : List Exchange)
        × IsHttpExchange (plain_timer_text at.now method.now callback.now.actor.now callback.now.name.now (option_copied callback.now.chain) (option_copied callback.now.payload) callback.now.due.now callback.now.period.now) (place_at at.now) xs result
        × Dialling xs (L.dialled app.old) (L.dialled app.new) (L.dial_faults app.old) (L.dial_faults app.new) }
{
    match timer_request(alloc, at, method, callback) {
        Err(_) => Err(EdgeError::OutOfMemory),
        Ok(asked) => exchange_at(alloc, app, at, &asked),
    }
}

/// Calls a timer that is due back at the application, under the chain of its turn.
pub(crate) fn call_timer<L: Dial>(
    alloc: Global,
    app: &mut L,
    at: &Address,
    due: &DueTimer,
    chain: Option<&ChainId>,
) -> Result<HttpResponse, EdgeError>
    ensures { (xs : List Exchange)
        × IsHttpExchange (timer_call at.now due.now (option_copied chain.entry)) (place_at at.now) xs result
        × Dialling xs (L.dialled app.old) (L.dialled app.new) (L.dial_faults app.old) (L.dial_faults app.new) }
{
    let method = due.timer.callback.as_str();
    let payload = payload_bytes(&due.timer.payload);
    let first = due.timer.due.as_str();
    let period = due.timer.period.as_str();
    let callback = Callback {
        actor: &due.key,
        name: &due.name,
        chain,
        payload,
        due: first,
        period,
    };
    call_back(alloc, app, at, method, &callback)
}
