// The works beside the connections.
ghost use Rattle.std.specs.Prelude.{IfSome};
ghost use Rattle.server_ports.specs.declared.duty.Duty.{Duty};

use crate::duty::Duty;
use crate::service::Service;
use std::sync::Wait;
use std::thread::{Scope, Threads};

/// Makes a turn of each work from this number on.
pub(crate) fn turns_from<V: Service<P>, W: Fn(Duty, P) -> P, P: Drop + Send>(
    service: &V,
    duty: &W,
    first: u32,
    pass: P,
) -> P
    requires pass { V.admits service.now pass }
    requires duties { (d : Duty) (p : P) → V.admits service.now p → W.pre duty.now d p }
    requires keeps { (d : Duty) (p : P) (q : P) → V.admits service.now p → W.post duty.now d p q → V.admits service.now q }
    ensures { V.admits service.now result }
{
    let mut pass = pass;
    for work in first..service.works() {
        pass = duty(Duty::Turn(work), pass);
    }
    pass
}

/// Finishes each work from this number on.
pub(crate) fn finish_from<V: Service<P>, W: Fn(Duty, P) -> P, P: Drop + Send>(
    service: &V,
    duty: &W,
    first: u32,
    pass: P,
) -> P
    requires pass { V.admits service.now pass }
    requires duties { (d : Duty) (p : P) → V.admits service.now p → W.pre duty.now d p }
    requires keeps { (d : Duty) (p : P) (q : P) → V.admits service.now p → W.post duty.now d p q → V.admits service.now q }
    ensures { V.admits service.now result }
{
    let mut pass = pass;
    for work in first..service.works() {
        pass = duty(Duty::Finish(work), pass);
    }
    pass
}

// Makes the turns of a work until the service is over, and finishes it.
fn keep_at<R: Wait, V: Service<P>, W: Fn(Duty, P) -> P, P: Drop + Send>(
    rt: &R,
    service: &V,
    duty: &W,
    work: u32,
    pass: P,
)
    requires pass { V.admits service.now pass }
    requires duties { (d : Duty) (p : P) → V.admits service.now p → W.pre duty.now d p }
    requires keeps { (d : Duty) (p : P) (q : P) → V.admits service.now p → W.post duty.now d p q → V.admits service.now q }
{
    let mut pass = pass;
    for _ in rt.forever() {
        if service.is_over() {
            break;
        }
        pass = duty(Duty::Turn(work), pass);
        pass = duty(Duty::Rest(work), pass);
    }
    duty(Duty::Finish(work), pass);
}

// Gives a work a thread of its own, and answers whether it has one; it has none without a pass.
fn start_work<
    's,
    E: 's,
    R: Threads + Wait + Sync + 's,
    V: Service<P> + 's,
    W: Fn(Duty, P) -> P + Sync + 's,
    P: Drop + Send + 's,
>(scope: &Scope<'s, E>, rt: &'s R, service: &'s V, duty: &'s W, work: u32, pass: Option<P>) -> bool
    requires pass { IfSome pass (λ p. V.admits service.now p) }
    requires duties { (d : Duty) (p : P) → V.admits service.now p → W.pre duty.now d p }
    requires keeps { (d : Duty) (p : P) (q : P) → V.admits service.now p → W.post duty.now d p q → V.admits service.now q }
{
    let Some(pass) = pass else {
        return false;
    };
    let job = move ||
        requires { V.admits service.now pass × ((d : Duty) (p : P) → V.admits service.now p → W.pre duty.now d p) × ((d : Duty) (p : P) (q : P) → V.admits service.now p → W.post duty.now d p q → V.admits service.now q) }
    { keep_at(rt, service, duty, work, pass) };
    scope.spawn(job).is_ok()
}

/// Gives the works threads of their own, in order, up to the first for which none can be made; it answers how many have
/// one, and gives the pass back.
pub(crate) fn start_works<
    's,
    E: 's,
    R: Threads + Wait + Sync + 's,
    V: Service<P> + 's,
    W: Fn(Duty, P) -> P + Sync + 's,
    P: Drop + Send + 's,
>(scope: &Scope<'s, E>, rt: &'s R, service: &'s V, duty: &'s W, pass: P) -> (P, u32)
    requires pass { V.admits service.now pass }
    requires duties { (d : Duty) (p : P) → V.admits service.now p → W.pre duty.now d p }
    requires keeps { (d : Duty) (p : P) (q : P) → V.admits service.now p → W.post duty.now d p q → V.admits service.now q }
    ensures { V.admits service.now result.0 }
{
    let mut pass = pass;
    for work in 0..service.works() {
        let (kept, own) = service.split(pass);
        pass = kept;
        if !start_work(scope, rt, service, duty, work, own) {
            return (pass, work);
        }
    }
    let started = service.works();
    (pass, started)
}
