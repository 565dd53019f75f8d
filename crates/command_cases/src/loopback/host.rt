// What a server is given, and gives back: disks in memory, and one port of TCP.
use crate::outside::{CaseHost, CaseOutside, listener};
use case_texts::add;
use disk_model::MemDisk;
use server_ports::MemHost;
use std::alloc::Global;
use std::net::{Net, TcpListener, TcpStream};
use std::time::Clock;

// Two empty disks.
fn disks(alloc: Global) -> Option<Vec<MemDisk>> {
    let mut disks = Vec::new(alloc);
    disks.push(MemDisk::new(alloc, b"", &[]).ok()?).ok()?;
    disks.push(MemDisk::new(alloc, b"", &[]).ok()?).ok()?;
    Some(disks)
}

/// A host of two empty disks and this port.
pub(crate) fn host_of<N: Clock + Copy + Send + Drop>(
    clock: N,
    alloc: Global,
    port: TcpListener,
) -> Option<CaseHost<N>> {
    let disks = disks(alloc)?;
    let mut ports = Vec::new(alloc);
    ports.push(listener(clock, alloc, port)?).ok()?;
    MemHost::new(alloc, disks, ports, &[]).ok()
}

/// Appends how many disks and ports were given back.
pub(crate) fn add_returned<
    N: Net<Listener = TcpListener, Stream = TcpStream> + Clock + Copy + Send + Drop,
>(alloc: Global, outside: &CaseOutside<N>, text: &mut String) -> Option<()> {
    let disks = outside.host.disks().len();
    let ports = outside.host.ports().len();
    add(
        format!(in alloc; " disks {disks} ports {ports}")
            .ok()?
            .as_str(),
        text,
    )
}
