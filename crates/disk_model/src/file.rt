// A disk over one of the library's files.
ghost use Rattle.std.specs.Prelude.{◌≡◌, ◌≤◌, ◌+◌, None, IfOk, IfErr, IfSome, IsErrOf, length, take};
ghost use Rattle.actor_ports.specs.Port.{HasCause, Appends, faults_after};
ghost use Rattle.actor_ports.specs.Real.{Counted};
ghost use Rattle.disk_model.specs.Disk.{IsSpent};

use crate::disk::Disk;
use actor_ports::PortError;
use std::alloc::{AllocError, Global};
use std::fs::OpenFile;
use std::io::ErrorKind;
use std::marker::Model;
use std::os::unix::fs::FileExt;

// The most bytes that one read asks the library for.
const PIECE: usize = 65_536;

/// A disk over one of the library's files. It reports nothing of what the file holds.
///
/// The file has to be open for reading and writing, and nobody else may write it.
#[derive(Drop)]
pub struct FileDisk<F: FileExt + OpenFile + Drop> {
    file: F,
    piece: Vec<u8>,
    faults: u64,
}

impl<F: FileExt + OpenFile + Drop> Model for FileDisk<F> {
    ghost use Rattle.std.specs.Prelude.{◌≡◌, vec_len};
    ghost use Rattle.actor_ports.specs.Real.{Counted};

    ghost Value = { Counted F };

    ghost view = { λ d. record { inner = d.file; faults = d.faults } };

    ghost invariant = { λ d. vec_len d.piece ≡ 65536 };
}

impl<F: FileExt + OpenFile + Drop> FileDisk<F> {
    /// A disk over this file, with room for one piece of 65,536 bytes.
    /// The only error is `OutOfMemory`, which drops the file.
    pub fn new(alloc: Global, file: F) -> Result<FileDisk<F>, PortError>
        ensures holds { IfOk result (λ d. d ≡ record { inner = file; faults = 0 }) }
        ensures memory { IfErr result (λ e. e ≡ PortError.OutOfMemory) }
    {
        let Ok(piece) = vec![in alloc; 0u8; PIECE] else {
            return Err(PortError::OutOfMemory);
        };
        Ok(FileDisk {
            file,
            piece,
            faults: 0,
        })
    }

    // The error of a call that failed: `Failed`, with one fault more, as long as the count can rise.
    fn fail(&mut self) -> PortError
        ensures same { self.new.inner ≡ self.old.inner }
        ensures counted { result ≡ PortError.Failed → self.new.faults ≡ self.old.faults + 1 }
        ensures memory { result ≡ PortError.OutOfMemory → (self.new.faults ≡ self.old.faults) × IsSpent self.old.faults }
    {
        if self.faults == u64::MAX {
            return PortError::OutOfMemory;
        }
        self.faults += 1;
        PortError::Failed
    }
}

impl<F: FileExt + OpenFile + Drop> Disk for FileDisk<F> {
    ghost told = { λ _. None };

    ghost disk_faults = { λ d. d.faults };

    /// Each failure is counted.
    fn len(&mut self) -> Result<u64, PortError>
        ensures cause { HasCause self.old.faults self.new.faults result }

        ensures counted { self.new.faults ≡ faults_after self.old.faults result }
        ensures same { self.new.inner ≡ self.old.inner }
    {
        match self.file.metadata() {
            Ok(metadata) => Ok(metadata.len()),
            Err(_) => Err(self.fail()),
        }
    }

    /// Reads piece after piece until there are `most` bytes, or the file ends. Each failure is counted.
    fn read(&mut self, at: u64, most: usize, into: &mut Vec<u8>) -> Result<usize, PortError>
        ensures most { IfOk result (λ n. n ≤ most) }
        ensures appends { Appends into.old.items into.new.items result }
        ensures cause { HasCause self.old.faults self.new.faults result }

        ensures counted { self.new.faults ≡ faults_after self.old.faults result }
        ensures same { self.new.inner ≡ self.old.inner }
    {
        let start = into.len();
        match fill_from(&self.file, self.piece.as_mut_slice(), at, most, into) {
            Ok(Some(count)) => Ok(count),
            Ok(None) => {
                into.truncate(start);
                Err(self.fail())
            }
            Err(_) => {
                into.truncate(start);
                Err(PortError::OutOfMemory)
            }
        }
    }

    /// Each failure is counted; a prefix of the bytes may have been written then.
    fn write_at(&mut self, at: u64, bytes: &[u8]) -> Result<(), PortError>
        ensures memory { IsErrOf result PortError.OutOfMemory → IsSpent self.old.faults }
        ensures cause { HasCause self.old.faults self.new.faults result }

        ensures counted { self.new.faults ≡ faults_after self.old.faults result }
        ensures same { self.new.inner ≡ self.old.inner }
    {
        match self.file.write_all_at(bytes, at) {
            Ok(()) => Ok(()),
            Err(_) => Err(self.fail()),
        }
    }

    /// Each failure is counted.
    fn cut(&mut self, len: u64) -> Result<(), PortError>
        ensures memory { IsErrOf result PortError.OutOfMemory → IsSpent self.old.faults }
        ensures cause { HasCause self.old.faults self.new.faults result }

        ensures counted { self.new.faults ≡ faults_after self.old.faults result }
        ensures same { self.new.inner ≡ self.old.inner }
    {
        match self.file.set_len(len) {
            Ok(()) => Ok(()),
            Err(_) => Err(self.fail()),
        }
    }

    /// Bytes and length are on the disk when the library's `sync_all` has answered. Each failure is counted.
    fn sync(&mut self) -> Result<(), PortError>
        ensures memory { IsErrOf result PortError.OutOfMemory → IsSpent self.old.faults }
        ensures cause { HasCause self.old.faults self.new.faults result }

        ensures counted { self.new.faults ≡ faults_after self.old.faults result }
        ensures same { self.new.inner ≡ self.old.inner }
    {
        match self.file.sync_all() {
            Ok(()) => Ok(()),
            Err(_) => Err(self.fail()),
        }
    }
}

// Appends the bytes from `at` on to `into`, at most `most`, and answers how many; `None` if the file failed.
fn fill_from<F: FileExt>(
    file: &F,
    piece: &mut [u8],
    at: u64,
    most: usize,
    into: &mut Vec<u8>,
) -> Result<Option<usize>, AllocError>
    requires { length piece.old ≡ 65536 }
    ensures length { length piece.new ≡ length piece.old }
    ensures most { IfOk result (λ r. IfSome r (λ n. n ≤ most)) }
    ensures front { take (length into.old.items) into.new.items ≡ into.old.items }
    ensures count { IfOk result (λ r. IfSome r (λ n. length into.new.items ≡ length into.old.items + n)) }
{
    let mut done = 0;
    while done < most {
        let room = (most - done).min(PIECE);
        let Some(count) = read_piece(file, &mut piece[..room], at.saturating_add(done as u64))
        else {
            return Ok(None);
        };
        if count == 0 {
            break;
        }
        into.extend_from_slice(&piece[..count])?;
        done += count;
    }
    Ok(Some(done))
}

// One read of the library; it tries again after each interruption.
fn read_piece<F: FileExt>(file: &F, piece: &mut [u8], at: u64) -> Option<usize>
    ensures length { length piece.new ≡ length piece.old }
    ensures bound { IfSome result (λ n. n ≤ length piece.old) }
{
    for _ in 0..u64::MAX {
        match file.read_at(piece, at) {
            Ok(count) => return Some(count),
            Err(error) => {
                if error.kind() != ErrorKind::Interrupted {
                    return None;
                }
            }
        }
    }
    None
}
