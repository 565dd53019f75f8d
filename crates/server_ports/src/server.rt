// A server: the connections of a port, and the work beside them.
ghost use Rattle.std.specs.Prelude.{◌≡◌, ◌<◌, ◌≤◌, ◌⊎◌, IsSome};
ghost use Rattle.server_ports.specs.declared.accept.ServerEnd.TheVariants.{PortFault, Served};
ghost use Rattle.server_ports.specs.declared.duty.Duty.{Duty};

use crate::accept::{ServerEnd, accept_to_end};
use crate::duty::Duty;
use crate::service::Service;
use crate::works::start_works;
use actor_ports::{Conn, Listen};
use std::sync::Wait;
use std::thread;
use std::thread::Threads;

/// Serves the connections of a port by `serve` until `most` were served (without a limit if it is `None`), the service is
/// over, or the port fails. Each has a thread of its own; while none can be made, it waits, with pauses. So has each work of
/// the service; one that has none gets a turn before each accept. All threads have ended when this returns.
pub fn serve_port<
    R: Threads + Wait + Sync,
    V: Service<P>,
    F: Fn(P, C) + Sync,
    W: Fn(Duty, P) -> P + Sync,
    C: Conn,
    P: Drop + Send,
    L: Listen<Link = C>,
>(rt: &R, service: &V, serve: &F, duty: &W, pass: P, port: L, most: Option<u64>) -> (L, ServerEnd)
    requires pass { V.admits service.now pass }
    requires serves { (p : P) (c : C) → V.admits service.now p → F.pre serve.now p c }
    requires duties { (d : Duty) (p : P) → V.admits service.now p → W.pre duty.now d p }
    requires keeps { (d : Duty) (p : P) (q : P) → V.admits service.now p → W.post duty.now d p q → V.admits service.now q }
    ensures never_falls { L.listen_faults port ≤ L.listen_faults result.0 }
    ensures cause { result.1 ≡ PortFault → L.listen_faults port < L.listen_faults result.0 }
    ensures limit { result.1 ≡ Served → IsSome most }
{
    thread::scope(
        thread::scope_env(),
        rt,
        |scope| -> (L, ServerEnd)
            requires { V.admits service.now pass × ((p : P) (c : C) → V.admits service.now p → F.pre serve.now p c) × ((d : Duty) (p : P) → V.admits service.now p → W.pre duty.now d p) × ((d : Duty) (p : P) (q : P) → V.admits service.now p → W.post duty.now d p q → V.admits service.now q) }
            ensures { (L.listen_faults port ≤ L.listen_faults result.0) × (result.1 ≡ PortFault → L.listen_faults port < L.listen_faults result.0) × (result.1 ≡ Served → IsSome most) }
        {
            let (pass, started) = start_works(scope, rt, service, duty, pass);
            accept_to_end(&*rt, &*service, &*serve, &*duty, pass, port, most, started)
        },
    )
}

// The end of a server with two ports: the first one that failed, or else that of the first port.
fn joint_end(first: ServerEnd, second: ServerEnd) -> ServerEnd
    ensures port { result ≡ PortFault → (first ≡ PortFault) ⊎ (second ≡ PortFault) }
    ensures served { result ≡ Served → first ≡ Served }
{
    match second {
        ServerEnd::PortFault | ServerEnd::OutOfMemory => match first {
            ServerEnd::Served | ServerEnd::Over => second,
            other => other,
        },
        _ => first,
    }
}

/// Serves the connections of a port as `serve_port` does, and beside it those of a second one by `beside`, without a limit.
/// The end of either ends both. The second port is served in a thread of its own; if none can be made, its connections
/// get no answer. Without memory for a second pass nothing is served.
pub fn serve_ports<
    R: Threads + Wait + Sync,
    V: Service<P>,
    F: Fn(P, C) + Sync,
    G: Fn(P, C) + Sync,
    W: Fn(Duty, P) -> P + Sync,
    C: Conn,
    P: Drop + Send,
    L: Listen<Link = C> + Send,
>(
    rt: &R,
    service: &V,
    serve: &F,
    beside: &G,
    duty: &W,
    pass: P,
    port: L,
    second: L,
    most: Option<u64>,
) -> (L, L, ServerEnd)
    requires pass { V.admits service.now pass }
    requires serves { (p : P) (c : C) → V.admits service.now p → F.pre serve.now p c }
    requires duties { (d : Duty) (p : P) → V.admits service.now p → W.pre duty.now d p }
    requires keeps { (d : Duty) (p : P) (q : P) → V.admits service.now p → W.post duty.now d p q → V.admits service.now q }
    requires besides { (p : P) (c : C) → V.admits service.now p → G.pre beside.now p c }
    ensures never_falls { L.listen_faults port ≤ L.listen_faults result.0 }
    ensures second_never_falls { L.listen_faults second ≤ L.listen_faults result.1 }
    ensures limit { result.2 ≡ Served → IsSome most }
    ensures cause { result.2 ≡ PortFault → (L.listen_faults port < L.listen_faults result.0) ⊎ (L.listen_faults second < L.listen_faults result.1) }
{
    let (pass, own) = service.split(pass);
    let Some(own) = own else {
        return (port, second, ServerEnd::OutOfMemory);
    };
    let ((second, second_end), (port, end)) = thread::join(
        rt,
        move || -> (L, ServerEnd)
            requires { V.admits service.now own × ((p : P) (c : C) → V.admits service.now p → G.pre beside.now p c) × ((d : Duty) (p : P) → V.admits service.now p → W.pre duty.now d p) × ((d : Duty) (p : P) (q : P) → V.admits service.now p → W.post duty.now d p q → V.admits service.now q) }
            ensures { (L.listen_faults second ≤ L.listen_faults result.0) × (result.1 ≡ PortFault → L.listen_faults second < L.listen_faults result.0) }
        { accept_to_end(rt, service, beside, duty, own, second, None, u32::MAX) },
        move || -> (L, ServerEnd)
            requires { V.admits service.now pass × ((p : P) (c : C) → V.admits service.now p → F.pre serve.now p c) × ((d : Duty) (p : P) → V.admits service.now p → W.pre duty.now d p) × ((d : Duty) (p : P) (q : P) → V.admits service.now p → W.post duty.now d p q → V.admits service.now q) }
            ensures { (L.listen_faults port ≤ L.listen_faults result.0) × (result.1 ≡ PortFault → L.listen_faults port < L.listen_faults result.0) × (result.1 ≡ Served → IsSome most) }
        { serve_port(rt, service, serve, duty, pass, port, most) },
    );
    (port, second, joint_end(end, second_end))
}
