// A listener over TCP.
ghost use Rattle.std.specs.Prelude.{◌≡◌, ◌<◌, IfOk, IfSome, None, Some};
ghost use Rattle.actor_ports.specs.Port.{HasCause, faults_after};

use super::pace::set_looks;
use super::stream::StreamConn;
use crate::port::{Listen, PortError};
use crate::waits::Waits;
use std::alloc::Global;
use std::marker::Model;
use std::net::{OpenListener, TcpStream};
use std::sync::Arc;
use std::sync::atomic::AtomicBool;
use std::time::{Clock, Duration};
use std::{io, thread};

// How long it waits before it accepts again where the system had no room for a connection, in milliseconds.
const PAUSE_MS: u64 = 50;

/// A listener over TCP.
///
/// In `main(rt: HostRuntime)`, for connections that fail after a minute without a byte:
/// `let ended = Arc::new(rt.alloc(), AtomicBool::new(false))?;`
/// `let bound = TcpListener::bind(&rt, "127.0.0.1:7400")?;`
/// `let listener = TcpListen::new(rt.alloc(), rt, ended, bound, Waits::quiet(60_000));`
#[derive(Drop)]
pub struct TcpListen<L: OpenListener<Stream = TcpStream> + Drop + Send, C: Clock + Copy> {
    alloc: Global,
    clock: C,
    ended: Arc<AtomicBool, Global>,
    listener: Option<L>,
    waits: Waits,
    faults: u64,
}

impl<L: OpenListener<Stream = TcpStream> + Drop + Send, C: Clock + Copy> Model for TcpListen<L, C> {
    ghost use Rattle.std.specs.Prelude.{Option};
    ghost use Rattle.actor_ports.specs.Real.{Counted};

    ghost Value = { Counted (Option L) };

    ghost view = { λ s. record { inner = s.listener; faults = s.faults } };
}

impl<L: OpenListener<Stream = TcpStream> + Drop + Send, C: Clock + Copy> TcpListen<L, C> {
    /// A listener whose connections wait so, as long as `ended` is false. By the clock it waits too while the system has no
    /// room for a connection.
    pub fn new(
        alloc: Global,
        clock: C,
        ended: Arc<AtomicBool, Global>,
        listener: L,
        waits: Waits,
    ) -> TcpListen<L, C>
        ensures { result ≡ record { inner = Some listener; faults = 0 } }
    {
        TcpListen {
            alloc,
            clock,
            ended,
            listener: Some(listener),
            waits,
            faults: 0,
        }
    }
}

impl<L: OpenListener<Stream = TcpStream> + Drop + Send, C: Clock + Copy + Send> Listen
    for TcpListen<L, C> {
    type Link = StreamConn<TcpStream, C>;

    ghost listen_faults = { λ s. s.faults };

    /// Waits for the next connection. Only a port that is lost fails, and is counted: where the system has no room for a
    /// connection (too many open files, no memory), it waits and tries again; a connection that is gone before it is
    /// accepted, or that fails as it is set up, is nobody's fault, and the next one is waited for. After 2^64 - 1 failures
    /// no further one can be counted: it answers `OutOfMemory` and accepts nothing.
    fn accept(&mut self) -> Result<StreamConn<TcpStream, C>, PortError>
        ensures fresh { IfOk result (λ link. link.faults ≡ 0) }
        ensures cause { HasCause self.old.faults self.new.faults result }

        ensures counted { self.new.faults ≡ faults_after self.old.faults result }
    {
        if self.faults == u64::MAX {
            return Err(PortError::OutOfMemory);
        }
        let next = accept_next(
            self.alloc,
            self.clock,
            &self.ended,
            &self.listener,
            self.waits,
        );
        let Some(conn) = next else {
            self.faults += 1;
            return Err(PortError::Failed);
        };
        Ok(conn)
    }

    /// Closes the port; a connection that nobody took yet is closed with it.
    fn close(&mut self)
        ensures same { self.new.faults ≡ self.old.faults }

        ensures closed { self.new ≡ record self.old { inner = None } }
    {
        self.listener = None;
    }
}

// What is to be done after an error of the system's `accept`.
#[derive(Clone, Copy)]
enum Remedy {
    // The port is lost.
    GiveUp,
    // That connection is gone.
    TakeNext,
    // There is no room for a connection now.
    Wait,
}

// By Linux's numbers: EBADF, EFAULT, EINVAL, ENOTSOCK and EOPNOTSUPP are of the port. EINTR, ENONET, EPROTO, ENOPROTOOPT,
// ENETDOWN, ENETUNREACH, ECONNABORTED, ETIMEDOUT, EHOSTDOWN and EHOSTUNREACH are of one connection, whose errors accept(2)
// passes on. An error without a number isn't the system's.
fn remedy_for(error: &io::Error) -> Remedy {
    match error.raw_os_error() {
        None | Some(9 | 14 | 22 | 88 | 95) => Remedy::GiveUp,
        Some(4 | 64 | 71 | 92 | 100 | 101 | 103 | 110 | 112 | 113) => Remedy::TakeNext,
        Some(_) => Remedy::Wait,
    }
}

// The next connection; none if the port is closed or lost.
fn accept_next<L: OpenListener<Stream = TcpStream>, C: Clock + Copy>(
    alloc: Global,
    clock: C,
    ended: &Arc<AtomicBool, Global>,
    listener: &Option<L>,
    waits: Waits,
) -> Option<StreamConn<TcpStream, C>>
    ensures { IfSome result (λ conn. conn.faults ≡ 0) }
{
    let listener = listener.as_ref()?;
    for _ in 0..u64::MAX {
        match listener.accept() {
            Ok((stream, _)) => {
                if let Some(conn) = set_up(alloc, stream, clock, ended, waits) {
                    return Some(conn);
                }
            }
            Err(error) => match remedy_for(&error) {
                Remedy::GiveUp => return None,
                Remedy::TakeNext => {}
                Remedy::Wait => thread::sleep(&clock, Duration::from_millis(PAUSE_MS)),
            },
        }
    }
    None
}

// A connection over this stream, unless it is gone or there is no memory for it.
fn set_up<C: Clock + Copy>(
    alloc: Global,
    stream: TcpStream,
    clock: C,
    ended: &Arc<AtomicBool, Global>,
    waits: Waits,
) -> Option<StreamConn<TcpStream, C>>
    ensures { IfSome result (λ conn. conn.faults ≡ 0) }
{
    set_looks(&stream, waits).ok()?;
    let ended = Arc::try_clone(ended).ok()?;
    StreamConn::new(alloc, stream, clock, ended, waits).ok()
}
