// A sink over one of the library's writers.
ghost use Rattle.std.specs.Prelude.{◌≡◌, ◌<◌, ◌≤◌, ◌↔◌, None, IfSome, IfNone, IsErrOf, IsTrue, length, take};
ghost use Rattle.std.specs.Io.KnownBytes.{Appends, Keeps};
ghost use Rattle.actor_ports.specs.Port.{HasCause, faults_after};
ghost use Rattle.actor_ports.specs.Real.{Counted, WritesKnownFront, WritesThrough};

use super::pace::{Impatient, Patience, Remedy, remedy_for};
use crate::port::{PortError, Sink};
use std::io::Write;
use std::marker::Model;

/// A sink over one of the library's writers. It reports what was written if the writer does.
///
/// Over standard output, in `main(rt: HostRuntime)`:
/// `let output = WriterSink::new(io::writer(&rt));`
#[derive(Drop)]
pub struct WriterSink<W: Write + Drop> {
    writer: W,
    faults: u64,
}

impl<W: Write + Drop> Model for WriterSink<W> {
    ghost use Rattle.actor_ports.specs.Real.{Counted};

    ghost Value = { Counted W };

    ghost view = { λ s. record { inner = s.writer; faults = s.faults } };
}

impl<W: Write + Drop> WriterSink<W> {
    /// A sink over this writer.
    pub fn new(writer: W) -> WriterSink<W>
        ensures { result ≡ record { inner = writer; faults = 0 } }
    {
        WriterSink { writer, faults: 0 }
    }
}

impl<W: Write + Drop> Sink for WriterSink<W> {
    ghost contents = { λ s. W.contents s.inner };

    ghost write_faults = { λ s. s.faults };

    /// Writes until all is written, going on after each interruption, and flushes. Each failure is counted.
    /// After 2^64 - 1 failures no further one can be counted: then, and only then, it answers `OutOfMemory` and writes
    /// nothing.
    fn write(&mut self, bytes: &[u8]) -> Result<(), PortError>
        ensures cause { HasCause self.old.faults self.new.faults result }

        ensures counted { self.new.faults ≡ faults_after self.old.faults result }
        ensures spent { IsErrOf result PortError.OutOfMemory ↔ (self.old.faults ≡ u64.MAX) }
        ensures through { WritesThrough (W.contents self.old.inner) (W.contents self.new.inner) bytes.now result }
    {
        write_counted(&mut self.writer, &mut Impatient, &mut self.faults, bytes)
    }
}

// Writes all of the bytes and flushes. A failure is counted as long as the count can rise.
pub(super) fn write_counted<W: Write, P: Patience>(
    writer: &mut W,
    patience: &mut P,
    faults: &mut u64,
    bytes: &[u8],
) -> Result<(), PortError>
    ensures counted { faults.new ≡ faults_after faults.old result }
    ensures spent { IsErrOf result PortError.OutOfMemory ↔ (faults.old ≡ u64.MAX) }
    ensures through { WritesThrough (W.contents writer.old) (W.contents writer.new) bytes.now result }
{
    if *faults == u64::MAX {
        return Err(PortError::OutOfMemory);
    }
    if !write_whole(writer, patience, bytes) {
        *faults += 1;
        return Err(PortError::Failed);
    }
    Ok(())
}

// Writes all of the bytes and flushes; or answers false, and a prefix of them was written.
fn write_whole<W: Write, P: Patience>(writer: &mut W, patience: &mut P, bytes: &[u8]) -> bool
    ensures whole { IsTrue result → Appends (W.contents writer.old) (W.contents writer.new) bytes.now }
    ensures front { WritesKnownFront (W.contents writer.old) (W.contents writer.new) bytes.now }
{
    patience.rests();
    patience.moves(bytes.len());
    let mut done = 0;
    while done < bytes.len() {
        let Some(count) = write_piece(writer, patience, &bytes[done..]) else {
            return false;
        };
        done += count;
    }
    patience.rests();
    writer.flush().is_ok()
}

// One write of the library; it tries again after each interruption, and where nothing went in time, as long as there is
// patience. A write that takes nothing has failed.
fn write_piece<W: Write, P: Patience>(writer: &mut W, patience: &P, bytes: &[u8]) -> Option<usize>
    ensures some { IfSome result (λ n. 0 < n) }
    ensures bound { IfSome result (λ n. n ≤ length bytes.now) }
    ensures written { IfSome result (λ n. Appends (W.contents writer.old) (W.contents writer.new) (take n bytes.now)) }
    ensures failed { IfNone result (Keeps (W.contents writer.old) (W.contents writer.new)) }
{
    let mut looks = 0u64;
    for _ in 0..u64::MAX {
        if patience.is_over(looks) {
            return None;
        }
        match writer.write(bytes) {
            Ok(0) => return None,
            Ok(count) => return Some(count),
            Err(error) => match remedy_for(&error) {
                Remedy::Again => {}
                Remedy::Look => looks = looks.saturating_add(1),
                Remedy::GiveUp => return None,
            },
        }
    }
    None
}
