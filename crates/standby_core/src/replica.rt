// The other end of a link, on whose disk calls are made too.
ghost use Rattle.std.specs.Prelude.{◌≡◌, ◌<◌, ◌≤◌, ◌+◌, length};
ghost use Rattle.actor_ports.specs.Port.{HasCause};
ghost use Rattle.frame_wire.specs.declared.mirror.MirrorCommand.{MirrorCommand};
ghost use Rattle.frame_wire.specs.declared.mirror.MirrorCommand.TheVariants as commands;
ghost use Rattle.frame_wire.specs.Mirrors.{most_piece, MirrorFits};
ghost use Rattle.standby_core.specs.Telling.{call_bytes, Asks, AsksAll};
ghost use Rattle.standby_core.specs.Asking.{Counts};
ghost use Rattle.standby_core.specs.Mirrors.{IsWrite, BeginsWrite};

use crate::hear::ask;
use crate::wire::Wire;
use actor_ports::PortError;
use frame_wire::{Frame, MOST_PIECE, MirrorCommand, write_frame, write_piece};
use std::alloc::{AllocError, Global};

// The most bytes of a frame that is a write: its length, kind, place, and the bytes behind their length.
const MOST_TEXT: usize = 1_048_593;

// The most bytes of one write.
pub(crate) const PIECE: usize = MOST_PIECE as usize;

/// A link to a standby, with room for a frame and its answer, and the number of answers that couldn't be read or told a
/// fault.
#[derive(Drop)]
pub(crate) struct Replica<L: Wire> {
    pub(crate) link: L,
    pub(crate) text: Vec<u8>,
    pub(crate) heard: Vec<u8>,
    pub(crate) unheard: u64,
}

/// Room for the longest frame.
pub(crate) fn text_room(alloc: Global) -> Result<Vec<u8>, AllocError> {
    Ok(Vec::with_capacity(alloc, MOST_TEXT)?)
}

// One more lost call is counted, if the link hasn't counted it.
fn count(asked: Result<bool, PortError>, unheard: &mut u64) -> Result<(), PortError>
    requires { unheard.old < 18446744073709551615 }
    ensures { Counts asked unheard.old unheard.new result }
{
    match asked {
        Ok(true) => Ok(()),
        Err(PortError::Failed) => Err(PortError::Failed),
        Ok(false) | Err(PortError::OutOfMemory) => {
            *unheard += 1;
            Err(PortError::Failed)
        }
    }
}

impl<L: Wire> Replica<L> {
    // A call that can't be sent is lost.
    fn lose(&mut self) -> PortError
        requires room { self.old.unheard < 18446744073709551615 }
        ensures failed { result ≡ PortError.Failed }
        ensures link { self.new.link ≡ self.old.link }
        ensures counted { self.new.unheard ≡ self.old.unheard + 1 }
    {
        self.unheard += 1;
        PortError::Failed
    }

    // Sends the text of a call, and waits for its answer.
    fn tell(&mut self) -> Result<(), PortError>
        requires room { self.old.unheard < 18446744073709551615 }
        ensures asks { (call : MirrorCommand) → self.old.text.items ≡ call_bytes call → Asks call (L.read_traffic self.old.link) (L.read_traffic self.new.link) self.old.unheard self.new.unheard result }
        ensures cause { HasCause (L.read_faults self.old.link + self.old.unheard) (L.read_faults self.new.link + self.new.unheard) result }
    {
        let asked = ask(&mut self.link, self.text.as_slice(), &mut self.heard);
        count(asked, &mut self.unheard)
    }

    // A call without bytes.
    #[tactic(auto, unfolding(frame_wire::specs::Frames::payload))]
    fn tell_short(&mut self, command: MirrorCommand) -> Result<(), PortError>
        requires room { self.old.unheard < 18446744073709551615 }
        requires fits { MirrorFits command }
        ensures asks { Asks command (L.read_traffic self.old.link) (L.read_traffic self.new.link) self.old.unheard self.new.unheard result }
        ensures cause { HasCause (L.read_faults self.old.link + self.old.unheard) (L.read_faults self.new.link + self.new.unheard) result }
    {
        self.text.clear();
        if write_frame(&Frame::Mirror { command }, &mut self.text).is_err() {
            return Err(self.lose());
        }
        self.tell()
    }

    /// The disk is cut to `len` bytes.
    pub(crate) fn tell_cut(&mut self, len: u64) -> Result<(), PortError>
        requires room { self.old.unheard < 18446744073709551615 }
        ensures asks { Asks (commands.Cut len) (L.read_traffic self.old.link) (L.read_traffic self.new.link) self.old.unheard self.new.unheard result }
        ensures cause { HasCause (L.read_faults self.old.link + self.old.unheard) (L.read_faults self.new.link + self.new.unheard) result }
    {
        self.tell_short(MirrorCommand::Cut { len })
    }

    /// All changes are put on the disk.
    pub(crate) fn tell_sync(&mut self) -> Result<(), PortError>
        requires room { self.old.unheard < 18446744073709551615 }
        ensures asks { Asks commands.Sync (L.read_traffic self.old.link) (L.read_traffic self.new.link) self.old.unheard self.new.unheard result }
        ensures cause { HasCause (L.read_faults self.old.link + self.old.unheard) (L.read_faults self.new.link + self.new.unheard) result }
    {
        self.tell_short(MirrorCommand::Sync)
    }

    /// At most 1,048,576 bytes are written over those from `at` on.
    pub(crate) fn tell_piece(&mut self, at: u64, bytes: &[u8]) -> Result<(), PortError>
        requires room { self.old.unheard < 18446744073709551615 }
        requires short { length bytes.now ≤ most_piece }
        ensures asks { Asks (commands.Write at bytes.now) (L.read_traffic self.old.link) (L.read_traffic self.new.link) self.old.unheard self.new.unheard result }
        ensures cause { HasCause (L.read_faults self.old.link + self.old.unheard) (L.read_faults self.new.link + self.new.unheard) result }
    {
        self.text.clear();
        if write_piece(at, bytes, &mut self.text).is_err() {
            return Err(self.lose());
        }
        self.tell()
    }

    // A piece of a write at `at`, behind `sent` of its bytes.
    fn tell_behind(&mut self, at: u64, sent: u64, bytes: &[u8]) -> Result<(), PortError>
        requires room { self.old.unheard < 18446744073709551615 }
        requires short { length bytes.now ≤ most_piece }
        ensures asks { Asks (commands.Write (at + sent) bytes.now) (L.read_traffic self.old.link) (L.read_traffic self.new.link) self.old.unheard self.new.unheard result }
        ensures cause { HasCause (L.read_faults self.old.link + self.old.unheard) (L.read_faults self.new.link + self.new.unheard) result }
    {
        match at.checked_add(sent) {
            None => Err(self.lose()),
            Some(place) => self.tell_piece(place, bytes),
        }
    }

    /// The bytes are written over those from `at` on, in pieces that a frame holds. A piece behind the last place that a
    /// number holds counts as lost.
    pub(crate) fn tell_write(&mut self, at: u64, bytes: &[u8]) -> Result<(), PortError>
        requires room { self.old.unheard < 18446744073709551615 }
        ensures asks { AsksAll (IsWrite at bytes.now) (BeginsWrite at bytes.now) (L.read_traffic self.old.link) (L.read_traffic self.new.link) self.old.unheard self.new.unheard result }
        ensures cause { HasCause (L.read_faults self.old.link + self.old.unheard) (L.read_faults self.new.link + self.new.unheard) result }
    {
        let mut rest = bytes;
        let mut sent = 0u64;
        while !rest.is_empty() {
            let (piece, others) = rest.split_at(rest.len().min(PIECE));
            self.tell_behind(at, sent, piece)?;
            sent += piece.len() as u64;
            rest = others;
        }
        Ok(())
    }
}
