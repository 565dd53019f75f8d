// A source over one of the library's readers.
ghost use Rattle.std.specs.Prelude.{◌≡◌, ◌<◌, ◌≤◌, None, IfOk, IfErr, IfSome, IfNone, length, take, vec_len};
ghost use Rattle.std.specs.Io.KnownBytes.{Consumes, IsAtEnd, Keeps};
ghost use Rattle.actor_ports.specs.Port.{HasCause, Appends, faults_after};
ghost use Rattle.actor_ports.specs.Real.{Counted, ReadsThrough};

use super::pace::{Impatient, Patience, Remedy, remedy_for};
use crate::port::{PortError, Source};
use std::alloc::Global;
use std::io::Read;
use std::marker::Model;

// The most bytes that one read asks the library for.
const PIECE: usize = 65_536;

/// A source over one of the library's readers. It reports what is left if the reader does.
///
/// Over standard input, in `main(rt: HostRuntime)`:
/// `let input = ReaderSource::new(rt.alloc(), rt.reader())?;`
#[derive(Drop)]
pub struct ReaderSource<R: Read + Drop> {
    reader: R,
    piece: Vec<u8>,
    faults: u64,
}

impl<R: Read + Drop> Model for ReaderSource<R> {
    ghost use Rattle.std.specs.Prelude.{◌≡◌, vec_len};
    ghost use Rattle.actor_ports.specs.Real.{Counted};

    ghost Value = { Counted R };

    ghost view = { λ s. record { inner = s.reader; faults = s.faults } };

    ghost invariant = { λ s. vec_len s.piece ≡ 65536 };
}

impl<R: Read + Drop> ReaderSource<R> {
    /// A source over this reader, with room for one piece of 65,536 bytes.
    /// The only error is `OutOfMemory`, which drops the reader.
    pub fn new(alloc: Global, reader: R) -> Result<ReaderSource<R>, PortError>
        ensures holds { IfOk result (λ s. s ≡ record { inner = reader; faults = 0 }) }
        ensures memory { IfErr result (λ e. e ≡ PortError.OutOfMemory) }
    {
        let piece = make_piece(alloc)?;
        Ok(ReaderSource {
            reader,
            piece,
            faults: 0,
        })
    }
}

impl<R: Read + Drop> Source for ReaderSource<R> {
    ghost remaining = { λ s. R.remaining s.inner };

    ghost read_faults = { λ s. s.faults };

    /// Reads once, at most 65,536 bytes; it tries again after each interruption. Each failure is counted.
    /// After 2^64 - 1 failures no further one can be counted: it answers `OutOfMemory` and reads nothing.
    fn read(&mut self, into: &mut Vec<u8>, most: usize) -> Result<usize, PortError>
        requires { 0 < most }
        ensures most { IfOk result (λ n. n ≤ most) }
        ensures appends { Appends into.old.items into.new.items result }
        ensures cause { HasCause self.old.faults self.new.faults result }

        ensures counted { self.new.faults ≡ faults_after self.old.faults result }
        ensures through { ReadsThrough (R.remaining self.old.inner) (R.remaining self.new.inner) into.old.items into.new.items result }
    {
        read_counted(
            &mut self.reader,
            &mut Impatient,
            &mut self.piece,
            &mut self.faults,
            into,
            most,
        )
    }
}

// Room for one piece.
pub(super) fn make_piece(alloc: Global) -> Result<Vec<u8>, PortError>
    ensures length { IfOk result (λ piece. vec_len piece ≡ 65536) }
    ensures memory { IfErr result (λ e. e ≡ PortError.OutOfMemory) }
{
    match vec![in alloc; 0u8; PIECE] {
        Ok(piece) => Ok(piece),
        Err(_) => Err(PortError::OutOfMemory),
    }
}

// Appends what one read of the library gives, at most a piece, to `into`. A failure is counted as long as the count
// can rise.
pub(super) fn read_counted<R: Read, P: Patience>(
    reader: &mut R,
    patience: &mut P,
    piece: &mut Vec<u8>,
    faults: &mut u64,
    into: &mut Vec<u8>,
    most: usize,
) -> Result<usize, PortError>
    requires some { 0 < most }
    requires piece { vec_len piece.old ≡ 65536 }
    ensures piece { vec_len piece.new ≡ 65536 }
    ensures most { IfOk result (λ n. n ≤ most) }
    ensures appends { Appends into.old.items into.new.items result }
    ensures counted { faults.new ≡ faults_after faults.old result }
    ensures through { ReadsThrough (R.remaining reader.old) (R.remaining reader.new) into.old.items into.new.items result }
{
    let room = most.min(PIECE);
    if *faults == u64::MAX || into.reserve(room).is_err() {
        return Err(PortError::OutOfMemory);
    }
    let Some(count) = read_piece(reader, patience, piece.as_mut_slice(), room) else {
        *faults += 1;
        return Err(PortError::Failed);
    };
    into.extend_from_slice(&piece.as_slice()[..count]).unwrap();
    Ok(count)
}

// One read of the library into the first bytes of `piece`; it tries again after each interruption, and where nothing came in
// time, as long as there is patience.
fn read_piece<R: Read, P: Patience>(
    reader: &mut R,
    patience: &mut P,
    piece: &mut [u8],
    room: usize,
) -> Option<usize>
    requires some { 0 < room }
    requires within { room ≤ length piece.old }
    ensures bound { IfSome result (λ n. n ≤ room) }
    ensures taken { IfSome result (λ n. Consumes (R.remaining reader.old) (R.remaining reader.new) (take n piece.new)) }
    ensures end { IfSome result (λ n. n ≡ 0 → IsAtEnd (R.remaining reader.new)) }
    ensures failed { IfNone result (Keeps (R.remaining reader.old) (R.remaining reader.new)) }
{
    let mut looks = 0u64;
    for _ in 0..u64::MAX {
        if patience.is_over(looks) {
            return None;
        }
        match reader.read(&mut piece[..room]) {
            Ok(count) => {
                patience.moves(count);
                return Some(count);
            }
            Err(error) => match remedy_for(&error) {
                Remedy::Again => {}
                Remedy::Look => looks = looks.saturating_add(1),
                Remedy::GiveUp => return None,
            },
        }
    }
    None
}
