// A dialler over TCP.
ghost use Rattle.std.specs.Prelude.{◌≡◌, ◌<◌, ◌≤◌, ◌+◌, ◌-◌, None, nat_lt, if◌then◌else◌, IfOk, IfErr, IfSome};
ghost use Rattle.actor_ports.specs.Port.{HasCause, faults_after};
ghost use Rattle.actor_ports.specs.Traffic.{TakesRoom, Counts};
ghost use Rattle.actor_ports.specs.Real.{DialCount};

use super::pace::set_looks;
use super::stream::StreamConn;
use crate::port::{Dial, PortError};
use crate::waits::Waits;
use std::alloc::Global;
use std::io;
use std::marker::Model;
use std::net::{IpAddr, Ipv4Addr, Net, SocketAddr, TcpStream};
use std::sync::Arc;
use std::sync::atomic::{AtomicBool, Ordering};
use std::time::{Clock, Duration};

/// A dialler over TCP. It reports nothing of what was dialled. It holds the link that it was given to keep last, and gives it
/// out again at the next dial to its place, if it is still open and nothing has come over it.
///
/// In `main(rt: HostRuntime)`, to connect within 5 seconds, and to wait 10 for each byte:
/// `let ended = Arc::new(rt.alloc(), AtomicBool::new(false))?;`
/// `let dialler = TcpDial::new(rt.alloc(), rt, ended, Some(5_000), Waits::quiet(10_000));`
#[derive(Drop)]
pub struct TcpDial<N: Net<Stream = TcpStream> + Clock + Copy> {
    alloc: Global,
    net: N,
    ended: Arc<AtomicBool, Global>,
    connect_ms: Option<u64>,
    waits: Waits,
    kept: Option<StreamConn<TcpStream, N>>,
    room: u64,
    faults: u64,
}

impl<N: Net<Stream = TcpStream> + Clock + Copy> Model for TcpDial<N> {
    ghost use Rattle.std.specs.Prelude.{◌<◌, ◌+◌, ◌^◌};
    ghost use Rattle.actor_ports.specs.Real.{DialCount};

    ghost Value = { DialCount };

    ghost view = { λ s. record { room = s.room; faults = s.faults } };

    ghost invariant = { λ s. s.faults + s.room < 2 ^ 64 };
}

impl<N: Net<Stream = TcpStream> + Clock + Copy> TcpDial<N> {
    /// A dialler whose dials fail after `connect_ms` milliseconds without an answer, and whose links wait so, as long as
    /// `ended` is false. `None` waits for as long as the system does, and 0 counts as 1. `end_links` makes `ended` true.
    pub fn new(
        alloc: Global,
        net: N,
        ended: Arc<AtomicBool, Global>,
        connect_ms: Option<u64>,
        waits: Waits,
    ) -> TcpDial<N>
        ensures { result ≡ record { room = 0; faults = 0 } }
    {
        TcpDial {
            alloc,
            net,
            ended,
            connect_ms,
            waits,
            kept: None,
            room: 0,
            faults: 0,
        }
    }
}

impl<N: Net<Stream = TcpStream> + Clock + Copy + Send> Dial for TcpDial<N> {
    type Link = StreamConn<TcpStream, N>;

    ghost dial_faults = { λ s. s.faults };

    ghost dialled = { λ _. None };

    ghost room = { λ s. s.room };

    /// Connects; a failure is counted. When the faults and the links that are out together reach 2^64 - 1, no further
    /// one can be counted: it answers `OutOfMemory` and connects to nothing.
    fn dial(&mut self, ip: u32, port: u16) -> Result<StreamConn<TcpStream, N>, PortError>
        ensures fresh { IfOk result (λ link. link.faults ≡ 0) }
        ensures room { TakesRoom self.old.room self.new.room result }
        ensures cause { HasCause self.old.faults self.new.faults result }

        ensures counted { self.new.faults ≡ faults_after self.old.faults result }
    {
        self.dial_waiting(ip, port, self.waits)
    }

    /// Connects as `dial` does, and to a link that waits so.
    fn dial_waiting(
        &mut self,
        ip: u32,
        port: u16,
        waits: Waits,
    ) -> Result<StreamConn<TcpStream, N>, PortError>
        ensures fresh { IfOk result (λ link. link.faults ≡ 0) }
        ensures room { TakesRoom self.old.room self.new.room result }
        ensures cause { HasCause self.old.faults self.new.faults result }

        ensures counted { self.new.faults ≡ faults_after self.old.faults result }
    {
        if self.faults >= u64::MAX - self.room {
            return Err(PortError::OutOfMemory);
        }
        let address = SocketAddr::new(IpAddr::V4(Ipv4Addr::from_bits(ip)), port);
        if let Some(link) = kept_link(&mut self.kept, address, waits) {
            self.room += 1;
            return Ok(link);
        }
        let Ok(ended) = Arc::try_clone(&self.ended) else {
            return Err(PortError::OutOfMemory);
        };
        let Ok(stream) = connect(&self.net, address, self.connect_ms, waits) else {
            self.faults += 1;
            return Err(PortError::Failed);
        };
        let link = StreamConn::new(self.alloc, stream, self.net, ended, waits)?;
        self.room += 1;
        Ok(link)
    }

    /// Closes the link.
    fn done(&mut self, link: StreamConn<TcpStream, N>)
        requires { 0 < self.old.room }
        ensures room { self.old.room ≤ self.new.room + 1 }
        ensures cause { Counts self.old.faults self.new.faults link.faults }

        ensures counted { self.new.faults ≡ self.old.faults + (if nat_lt 0 link.faults then 1 else 0) }
    {
        self.room -= 1;
        if link.faults() > 0 {
            self.faults += 1;
        }
    }

    /// Keeps the link, if it hasn't failed, in place of the one that was kept before.
    fn keep(&mut self, link: StreamConn<TcpStream, N>)
        requires { 0 < self.old.room }
        ensures room { self.old.room ≤ self.new.room + 1 }
        ensures cause { Counts self.old.faults self.new.faults link.faults }

        ensures counted { self.new.faults ≡ self.old.faults + (if nat_lt 0 link.faults then 1 else 0) }
    {
        self.room -= 1;
        if link.faults() > 0 {
            self.faults += 1;
        } else {
            self.kept = Some(link);
        }
    }

    /// A dialler with the same time-outs. It takes no memory; at more than 2^63 others it answers `OutOfMemory`.
    fn another(&self) -> Result<TcpDial<N>, PortError>
        ensures fresh { IfOk result (λ other. other.faults ≡ 0) }
        ensures memory { IfErr result (λ e. e ≡ PortError.OutOfMemory) }

        ensures counts { IfOk result (λ other. other ≡ record { room = 0; faults = 0 }) }
    {
        let Ok(ended) = Arc::try_clone(&self.ended) else {
            return Err(PortError::OutOfMemory);
        };
        Ok(TcpDial {
            alloc: self.alloc,
            net: self.net,
            ended,
            connect_ms: self.connect_ms,
            waits: self.waits,
            kept: None,
            room: 0,
            faults: 0,
        })
    }

    fn end_links(&self) {
        self.ended.store(true, Ordering::SeqCst);
    }
}

// The link that is kept, if it leads there and can be used again.
fn kept_link<N: Clock + Copy>(
    kept: &mut Option<StreamConn<TcpStream, N>>,
    address: SocketAddr,
    waits: Waits,
) -> Option<StreamConn<TcpStream, N>>
    ensures { IfSome result (λ link. link.faults ≡ 0) }
{
    let link = kept.take()?;
    if link.place() != Some(address) {
        return None;
    }
    link.again(waits)
}

// A stream to the address, whose reads and writes come back once in a while.
fn connect<N: Net<Stream = TcpStream>>(
    net: &N,
    address: SocketAddr,
    connect_ms: Option<u64>,
    waits: Waits,
) -> io::Result<TcpStream> {
    let stream = match connect_ms {
        Some(ms) => net.connect_timeout(address, Duration::from_millis(ms.max(1)))?,
        None => net.connect(address)?,
    };
    set_looks(&stream, waits)?;
    Ok(stream)
}
