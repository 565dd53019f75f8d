// A connection over one of the library's streams.
ghost use Rattle.std.specs.Prelude.{◌≡◌, ◌<◌, ◌≤◌, ◌↔◌, None, IfOk, IfErr, IfSome, IsErrOf, refl};
ghost use Rattle.actor_ports.specs.Port.{HasCause, Appends, faults_after};
ghost use Rattle.actor_ports.specs.Real.{Counted, ReadsThrough, WritesThrough};

use super::pace::{Pace, is_still, look_ms, set_looks};
use super::reader::{make_piece, read_counted};
use super::writer::write_counted;
use crate::port::{Conn, PortError, Sink, Source};
use crate::waits::Waits;
use std::alloc::Global;
use std::io::{Read, Write};
use std::marker::Model;
use std::net::{SocketAddr, TcpStream};
use std::sync::Arc;
use std::sync::atomic::AtomicBool;
use std::time::Clock;

/// A connection over one of the library's streams. It reports nothing of the bytes that go over it.
///
/// It fails once it has waited for too long, or isn't wanted any more; that counts like any other failure.
#[derive(Drop)]
pub struct StreamConn<S: Read + Write + Drop + Send, C: Clock + Copy> {
    stream: S,
    pace: Pace<C>,
    piece: Vec<u8>,
    faults: u64,
}

impl<S: Read + Write + Drop + Send, C: Clock + Copy> Model for StreamConn<S, C> {
    ghost use Rattle.std.specs.Prelude.{◌≡◌, vec_len};
    ghost use Rattle.actor_ports.specs.Real.{Counted};

    ghost Value = { Counted S };

    ghost view = { λ s. record { inner = s.stream; faults = s.faults } };

    ghost invariant = { λ s. vec_len s.piece ≡ 65536 };
}

impl<S: Read + Write + Drop + Send, C: Clock + Copy> StreamConn<S, C> {
    /// A connection over this stream, with room for one piece of 65,536 bytes. It waits by this clock, as long as `ended` is
    /// false; a read or write of the stream has to come back once in a while for that, as `WouldBlock` or `TimedOut`.
    /// The only error is `OutOfMemory`, which drops the stream.
    pub fn new(
        alloc: Global,
        stream: S,
        clock: C,
        ended: Arc<AtomicBool, Global>,
        waits: Waits,
    ) -> Result<StreamConn<S, C>, PortError>
        ensures holds { IfOk result (λ s. s ≡ record { inner = stream; faults = 0 }) }
        ensures memory { IfErr result (λ e. e ≡ PortError.OutOfMemory) }
    {
        let piece = make_piece(alloc)?;
        Ok(StreamConn {
            stream,
            pace: Pace::new(clock, ended, waits),
            piece,
            faults: 0,
        })
    }

    // How often it has failed.
    pub(super) fn faults(&self) -> u64
        ensures { result ≡ self.now.faults }
    {
        self.faults
    }
}

impl<C: Clock + Copy> StreamConn<TcpStream, C> {
    // The address of its other end.
    pub(super) fn place(&self) -> Option<SocketAddr> {
        self.stream.peer_addr().ok()
    }

    // The same connection for another use, without a fault, if it is open and nothing has come that nobody has read.
    pub(super) fn again(self, waits: Waits) -> Option<StreamConn<TcpStream, C>>
        ensures { IfSome result (λ s. s.faults ≡ 0) }
    {
        let StreamConn {
            stream,
            pace,
            piece,
            faults: _,
        } = self;
        if !is_still(&stream) {
            return None;
        }
        if look_ms(pace.waits()) != look_ms(waits) {
            set_looks(&stream, waits).ok()?;
        }
        Some(StreamConn {
            stream,
            pace: pace.again(waits),
            piece,
            faults: 0,
        })
    }
}

impl<S: Read + Write + Drop + Send, C: Clock + Copy> Source for StreamConn<S, C> {
    ghost remaining = { λ _. None };

    ghost read_faults = { λ s. s.faults };

    /// Reads once, at most 65,536 bytes; it tries again after each interruption. Each failure is counted.
    /// After 2^64 - 1 failures no further one can be counted: it answers `OutOfMemory` and reads nothing.
    fn read(&mut self, into: &mut Vec<u8>, most: usize) -> Result<usize, PortError>
        requires { 0 < most }
        ensures most { IfOk result (λ n. n ≤ most) }
        ensures appends { Appends into.old.items into.new.items result }
        ensures cause { HasCause self.old.faults self.new.faults result }

        ensures counted { self.new.faults ≡ faults_after self.old.faults result }
        ensures through { ReadsThrough (S.Read.remaining self.old.inner) (S.Read.remaining self.new.inner) into.old.items into.new.items result }
    {
        read_counted(
            &mut self.stream,
            &mut self.pace,
            &mut self.piece,
            &mut self.faults,
            into,
            most,
        )
    }
}

impl<S: Read + Write + Drop + Send, C: Clock + Copy> Sink for StreamConn<S, C> {
    ghost contents = { λ _. None };

    ghost write_faults = { λ s. s.faults };

    /// Writes until all is written, going on after each interruption, and flushes. Each failure is counted.
    /// After 2^64 - 1 failures no further one can be counted: then, and only then, it answers `OutOfMemory` and writes
    /// nothing.
    fn write(&mut self, bytes: &[u8]) -> Result<(), PortError>
        ensures cause { HasCause self.old.faults self.new.faults result }

        ensures counted { self.new.faults ≡ faults_after self.old.faults result }
        ensures spent { IsErrOf result PortError.OutOfMemory ↔ (self.old.faults ≡ u64.MAX) }
        ensures through { WritesThrough (S.Write.contents self.old.inner) (S.Write.contents self.new.inner) bytes.now result }
    {
        write_counted(&mut self.stream, &mut self.pace, &mut self.faults, bytes)
    }
}

impl<S: Read + Write + Drop + Send, C: Clock + Copy + Send> Conn for StreamConn<S, C> {
    ghost one_count = { λ _. refl };

    ghost one_traffic = { λ _. refl };

    ghost left_told = { λ _. refl };
}
