// The configuration that the application says.
ghost use Rattle.std.specs.Prelude.{◌≡◌, ◌≤◌, List, IfOk, IfSome};
ghost use Rattle.part_model.specs.Settings.{AreShallow};
ghost use Rattle.http_edge.specs.Texts.{request_text};
ghost use Rattle.app_texts.specs.Texts.{config_text};
ghost use Rattle.exchanges.specs.Exchanges.{Exchange, Dialling};
ghost use Rattle.exchanges.specs.Replies.{place_at};
ghost use Rattle.sidecar_start.specs.Tries.{IsTry, IsRun};
ghost use Rattle.sidecar_start.specs.Configuring.{SaysConfig, ReplyComes, ConfigComes, ConfigCarries, config_end};

use crate::booting::RETRY_MS;
use crate::end::StartEnd;
use actor_names::Address;
use actor_ports::{Clock, Dial, PortError};
use app_texts::{AppConfig, ConfigError, config_request, read_config};
use http_edge::{EdgeError, HttpRequest, HttpResponse, exchange};
use std::alloc::Global;
use std::sync::Wait;

/// The end for a configuration that can't be taken.
fn config_end(error: ConfigError) -> StartEnd
    ensures { result ≡ config_end error }
{
    match error {
        ConfigError::NotJson => StartEnd::AppConfig {
            error: ConfigError::NotJson,
        },
        ConfigError::BadKey { name } => StartEnd::AppConfig {
            error: ConfigError::BadKey { name },
        },
        ConfigError::TooManyTypes { n } => StartEnd::AppConfig {
            error: ConfigError::TooManyTypes { n },
        },
        ConfigError::OutOfMemory => StartEnd::OutOfMemory,
    }
}

/// What the body of a reply comes to.
fn config_in(alloc: Global, body: &[u8]) -> Result<Option<AppConfig>, StartEnd>
    ensures says { SaysConfig body.now result }
    ensures shallow { IfOk result (λ tried. IfSome tried (λ config. AreShallow config.kinds)) }
{
    match read_config(alloc, body) {
        Ok(config) => Ok(Some(config)),
        Err(error) => Err(config_end(error)),
    }
}

/// What a reply comes to.
fn reply_in(alloc: Global, reply: &HttpResponse) -> Result<Option<AppConfig>, StartEnd>
    ensures comes { ReplyComes reply.now result }
    ensures shallow { IfOk result (λ tried. IfSome tried (λ config. AreShallow config.kinds)) }
{
    let status = reply.status;
    if status != 200 {
        return Err(StartEnd::AppStatus { status });
    }
    config_in(alloc, reply.body.as_slice())
}

/// What the application's reply says, or why there is none.
fn read_in(
    alloc: Global,
    read: &Result<HttpResponse, EdgeError>,
) -> Result<Option<AppConfig>, StartEnd>
    ensures comes { ConfigComes read.now result }
    ensures shallow { IfOk result (λ tried. IfSome tried (λ config. AreShallow config.kinds)) }
{
    match read {
        Ok(reply) => reply_in(alloc, reply),
        Err(EdgeError::ConnFault) => Ok(None),
        Err(EdgeError::OutOfMemory) => Err(StartEnd::OutOfMemory),
        Err(_) => Err(StartEnd::AppUnreadable),
    }
}

/// Asks the application once for its configuration.
fn try_config<L: Dial>(
    alloc: Global,
    dialler: &mut L,
    app: &Address,
    request: &HttpRequest,
) -> Result<Option<AppConfig>, StartEnd>
    requires { request_text request.now ≡ config_text app.now }
    ensures tries { (xs : List Exchange)
        × IsTry (ConfigCarries app.now) (place_at app.now) xs result
        × Dialling xs (L.dialled dialler.old) (L.dialled dialler.new) (L.dial_faults dialler.old) (L.dial_faults dialler.new) }
    ensures shallow { IfOk result (λ tried. IfSome tried (λ config. AreShallow config.kinds)) }
{
    let mut link = match dialler.dial(app.ip, app.port) {
        Ok(link) => link,
        Err(PortError::Failed) => return Err(StartEnd::DialFault),
        Err(PortError::OutOfMemory) => return Err(StartEnd::OutOfMemory),
    };
    let read = exchange(alloc, request, &mut link);
    dialler.done(link);
    read_in(alloc, &read)
}

/// Asks the application for its configuration, with this request, until it answers.
fn ask_with<R: Wait, L: Dial, K: Clock>(
    rt: &R,
    alloc: Global,
    dialler: &mut L,
    clock: &mut K,
    app: &Address,
    request: &HttpRequest,
) -> Result<AppConfig, StartEnd>
    requires { request_text request.now ≡ config_text app.now }
    ensures asks { (xs : List Exchange)
        × IsRun (ConfigCarries app.now) (place_at app.now) xs result
        × Dialling xs (L.dialled dialler.old) (L.dialled dialler.new) (L.dial_faults dialler.old) (L.dial_faults dialler.new) }
    ensures shallow { IfOk result (λ config. AreShallow config.kinds) }
    ensures clock { K.shown clock.old ≤ K.shown clock.new }
{
    for _ in rt.forever() {
        match try_config(alloc, dialler, app, request) {
            Err(end) => return Err(end),
            Ok(Some(config)) => return Ok(config),
            Ok(None) => clock.pause(RETRY_MS),
        }
    }
    unreachable!()
}

/// Asks the application for its configuration until it answers. A link that failed is tried again after a pause.
pub(crate) fn ask_config<R: Wait, L: Dial, K: Clock>(
    rt: &R,
    alloc: Global,
    dialler: &mut L,
    clock: &mut K,
    app: &Address,
) -> Result<AppConfig, StartEnd>
    ensures asks { (xs : List Exchange)
        × IsRun (ConfigCarries app.now) (place_at app.now) xs result
        × Dialling xs (L.dialled dialler.old) (L.dialled dialler.new) (L.dial_faults dialler.old) (L.dial_faults dialler.new) }
    ensures shallow { IfOk result (λ config. AreShallow config.kinds) }
    ensures clock { K.shown clock.old ≤ K.shown clock.new }
{
    match config_request(alloc, app) {
        Err(_) => Err(StartEnd::OutOfMemory),
        Ok(request) => ask_with(rt, alloc, dialler, clock, app, &request),
    }
}
