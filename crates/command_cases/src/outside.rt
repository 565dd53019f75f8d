// The outside of a command: input and output in memory, given disks and ports, dials over TCP, and the system's clock.
use actor_ports::{MemSink, MemSource, SystemClock, TcpDial, TcpListen, Waits};
use actors_top::Outside;
use disk_model::MemDisk;
use server_ports::MemHost;
use std::alloc::Global;
use std::net::{Net, TcpListener, TcpStream};
use std::sync::Arc;
use std::sync::atomic::AtomicBool;
use std::time::Clock;

/// A host of disks in memory and ports of TCP.
pub(crate) type CaseHost<N> = MemHost<MemDisk, TcpListen<TcpListener, N>>;

/// What a command runs in.
pub(crate) type CaseOutside<N> = Outside<
    MemSource,
    MemSink,
    TcpDial<N>,
    TcpDial<N>,
    TcpDial<N>,
    SystemClock<N>,
    CaseHost<N>,
>;

/// A host without disks and ports. A server that runs over it ends at once, since its disk can't be opened.
pub(crate) fn bare_host<N: Clock + Copy + Send + Drop>(alloc: Global) -> Option<CaseHost<N>> {
    MemHost::new(alloc, Vec::new(alloc), Vec::new(alloc), &[]).ok()
}

// A flag that nothing sets: connections don't end before their time.
fn unended(alloc: Global) -> Option<Arc<AtomicBool, Global>> {
    Arc::new(alloc, AtomicBool::new(false)).ok()
}

/// A dialler over TCP.
pub(crate) fn dialler<N: Net<Stream = TcpStream> + Clock + Copy + Send>(
    net: N,
    alloc: Global,
) -> Option<TcpDial<N>> {
    let waits = Waits::quiet(10_000);
    Some(TcpDial::new(alloc, net, unended(alloc)?, Some(5_000), waits))
}

/// A listener over TCP.
pub(crate) fn listener<N: Clock + Copy + Send>(
    clock: N,
    alloc: Global,
    port: TcpListener,
) -> Option<TcpListen<TcpListener, N>> {
    let waits = Waits::quiet(10_000);
    Some(TcpListen::new(alloc, clock, unended(alloc)?, port, waits))
}

/// The outside of a command with this input, output and host.
pub(crate) fn outside_of<
    N: Net<Listener = TcpListener, Stream = TcpStream> + Clock + Copy + Send + Drop,
>(
    net: N,
    alloc: Global,
    input: MemSource,
    output: MemSink,
    host: CaseHost<N>,
) -> Option<CaseOutside<N>> {
    Some(Outside {
        input,
        output,
        net: dialler(net, alloc)?,
        app: dialler(net, alloc)?,
        peers: dialler(net, alloc)?,
        time: SystemClock::new(net),
        steady: SystemClock::steady(net),
        host,
    })
}
