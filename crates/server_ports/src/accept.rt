// The connections of a port, each in a thread of its own.
ghost use Rattle.std.specs.Prelude.{◌≡◌, ◌≢◌, ◌<◌, ◌≤◌, IsSome, IsTrue};
ghost use Rattle.actor_ports.specs.declared.port.PortError.{PortError};
ghost use Rattle.server_ports.specs.declared.accept.ServerEnd.TheVariants.{PortFault, Served};
ghost use Rattle.server_ports.specs.declared.duty.Duty.{Duty};

use crate::duty::Duty;
use crate::service::Service;
use crate::works::{finish_from, turns_from};
use actor_ports::{Conn, Listen, PortError};
use std::sync::Wait;
use std::sync::atomic::{AtomicU64, Ordering};
use std::thread;
use std::thread::{SpawnError, Threads};

/// How a loop over the connections of a port ended.
#[derive(Clone, Copy)]
pub enum ServerEnd {
    /// As many connections were accepted as were asked for.
    Served,
    /// The service was over before.
    Over,
    /// The listener failed.
    PortFault,
    /// The listener had no memory for the next connection.
    OutOfMemory,
}

// How a loop ends whose listener gave this error.
fn end_of(error: PortError) -> ServerEnd
    ensures port { result ≡ PortFault → error ≡ PortError.Failed }
    ensures other { result ≢ Served }
{
    match error {
        PortError::Failed => ServerEnd::PortFault,
        PortError::OutOfMemory => ServerEnd::OutOfMemory,
    }
}

// Whether as many connections were accepted as were asked for; without a limit never.
fn is_enough(most: Option<u64>, accepted: u64) -> bool
    ensures { IsTrue result → IsSome most }
{
    match most {
        Some(most) => most <= accepted,
        None => false,
    }
}

/// Accepts connections until `most` were served or the service is over, and serves each by `serve` in a thread of its own.
/// One beyond those that the service takes at once waits to be accepted. While no thread can be made, a connection waits,
/// with pauses, and is closed if the service is over first. Before each accept it makes a turn of each work from number
/// `idle` on. A port that fails ends the service; once that is over the port is closed, and what still waits is woken. It
/// returns when all connections have ended, and gives its pass back.
fn accept_all<
    R: Threads + Wait + Sync,
    V: Service<P>,
    F: Fn(P, C) + Sync,
    W: Fn(Duty, P) -> P + Sync,
    C: Conn,
    P: Drop + Send,
    L: Listen<Link = C>,
>(
    rt: &R,
    service: &V,
    serve: &F,
    duty: &W,
    pass: P,
    port: L,
    most: Option<u64>,
    idle: u32,
) -> (L, ServerEnd, P)
    requires pass { V.admits service.now pass }
    requires serves { (p : P) (c : C) → V.admits service.now p → F.pre serve.now p c }
    requires duties { (d : Duty) (p : P) → V.admits service.now p → W.pre duty.now d p }
    requires keeps { (d : Duty) (p : P) (q : P) → V.admits service.now p → W.post duty.now d p q → V.admits service.now q }
    ensures never_falls { L.listen_faults port ≤ L.listen_faults result.0 }
    ensures cause { result.1 ≡ PortFault → L.listen_faults port < L.listen_faults result.0 }
    ensures limit { result.1 ≡ Served → IsSome most }
    ensures admits { V.admits service.now result.2 }
{
    let open = AtomicU64::new(0);
    thread::scope(
        thread::scope_env(),
        rt,
        |scope| -> (L, ServerEnd, P)
            requires { V.admits service.now pass × ((p : P) (c : C) → V.admits service.now p → F.pre serve.now p c) × ((d : Duty) (p : P) → V.admits service.now p → W.pre duty.now d p) × ((d : Duty) (p : P) (q : P) → V.admits service.now p → W.post duty.now d p q → V.admits service.now q) }
            ensures { (L.listen_faults port ≤ L.listen_faults result.0) × (result.1 ≡ PortFault → L.listen_faults port < L.listen_faults result.0) × (result.1 ≡ Served → IsSome most) × V.admits service.entry.now result.2 }
        {
            let mut pass = pass;
            let mut port = port;
            let mut served = 0u64;
            let mut end = ServerEnd::Over;
            for _ in rt.forever() {
                if is_enough(most, served) {
                    return (port, ServerEnd::Served, pass);
                }
                if service.is_over() {
                    break;
                }
                pass = turns_from(&*service, &*duty, idle, pass);
                if open.load(Ordering::SeqCst) >= service.most_at_once() {
                    pass = duty(Duty::Pause, pass);
                    continue;
                }
                let conn = match port.accept() {
                    Ok(conn) => conn,
                    Err(error) => {
                        end = end_of(error);
                        service.end();
                        break;
                    }
                };
                served = served.saturating_add(1);
                let (kept, own) = service.split(pass);
                pass = kept;
                let Some(own) = own else {
                    continue;
                };
                open.fetch_add(1, Ordering::SeqCst);
                let count = &open;
                let mut job = move ||
                    requires { F.pre serve.now own conn }
                {
                    serve(own, conn);
                    count.fetch_sub(1, Ordering::SeqCst);
                };
                for _ in rt.forever() {
                    let Err(SpawnError { value }) = scope.spawn(job) else {
                        break;
                    };
                    if service.is_over() {
                        break;
                    }
                    job = value;
                    pass = duty(Duty::Pause, pass);
                }
            }
            port.close();
            pass = duty(Duty::Wake, pass);
            (port, end, pass)
        },
    )
}

/// Accepts connections and serves them as `accept_all` does. Then the service is over, what still waits is woken, and the
/// works whose turns were made here are finished.
pub(crate) fn accept_to_end<
    R: Threads + Wait + Sync,
    V: Service<P>,
    F: Fn(P, C) + Sync,
    W: Fn(Duty, P) -> P + Sync,
    C: Conn,
    P: Drop + Send,
    L: Listen<Link = C>,
>(
    rt: &R,
    service: &V,
    serve: &F,
    duty: &W,
    pass: P,
    port: L,
    most: Option<u64>,
    idle: u32,
) -> (L, ServerEnd)
    requires pass { V.admits service.now pass }
    requires serves { (p : P) (c : C) → V.admits service.now p → F.pre serve.now p c }
    requires duties { (d : Duty) (p : P) → V.admits service.now p → W.pre duty.now d p }
    requires keeps { (d : Duty) (p : P) (q : P) → V.admits service.now p → W.post duty.now d p q → V.admits service.now q }
    ensures never_falls { L.listen_faults port ≤ L.listen_faults result.0 }
    ensures cause { result.1 ≡ PortFault → L.listen_faults port < L.listen_faults result.0 }
    ensures limit { result.1 ≡ Served → IsSome most }
{
    let (port, end, pass) = accept_all(rt, service, serve, duty, pass, port, most, idle);
    service.end();
    let pass = duty(Duty::Wake, pass);
    finish_from(service, duty, idle, pass);
    (port, end)
}
