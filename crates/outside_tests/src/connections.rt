// A service that counts what it serves.
use actor_ports::{MemConn, MemListen};
use server_ports::{Duty, Service, serve_port};
use std::alloc::Global;
use std::sync::atomic::{AtomicBool, AtomicU64, Ordering};
use std::test::Fail;

#[derive(Drop)]
struct Counting {
    served: AtomicU64,
    over: AtomicBool,
}

#[derive(Drop)]
struct Pass;

impl Service<Pass> for Counting {
    ghost admits = { λ _ _. Unit {0} };

    fn split(&self, pass: Pass) -> (Pass, Option<Pass>) {
        (pass, Some(Pass))
    }

    fn works(&self) -> u32 {
        1
    }

    fn most_at_once(&self) -> u64 {
        2
    }

    fn is_over(&self) -> bool {
        self.over.load(Ordering::SeqCst)
    }

    fn end(&self) {
        self.over.store(true, Ordering::SeqCst);
    }
}

fn three_connections(alloc: Global) -> Result<MemListen, Fail> {
    let mut links = Vec::new(alloc);
    links.push(MemConn::new(alloc, b"", &[])?)?;
    links.push(MemConn::new(alloc, b"", &[])?)?;
    links.push(MemConn::new(alloc, b"", &[])?)?;
    Ok(MemListen::new(alloc, links, &[])?)
}

#[test]
fn each_connection_is_served_once(rt: HostRuntime) -> Result<(), Fail> {
    let counting = Counting {
        served: AtomicU64::new(0),
        over: AtomicBool::new(false),
    };
    let port = three_connections(rt.alloc())?;
    let served = &counting.served;
    let (_port, _end) = serve_port(
        &rt,
        &counting,
        &|_: Pass, _: MemConn| {
            served.fetch_add(1, Ordering::SeqCst);
        },
        &|_: Duty, pass: Pass| -> Pass { pass },
        Pass,
        port,
        Some(3),
    );
    assert!(rt; counting.served.load(Ordering::SeqCst) == 3 && counting.is_over());
    Ok(())
}
