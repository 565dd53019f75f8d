// How a standby's disk gets the bytes of another.
ghost use Rattle.std.specs.Prelude.{◌≡◌, ◌≤◌, ◌+◌, [], OnOk, IfOk, IfErr};
ghost use Rattle.actor_ports.specs.Port.{HasCause};
ghost use Rattle.standby_core.specs.Replicas.{opening_calls, first_call};
ghost use Rattle.standby_core.specs.Telling.{AreDone, Asks};
ghost use Rattle.standby_core.specs.Attaching.{Attaches, AttachCause, ReadsFirst, SendsRest, SendsBehind};

use crate::replica::{PIECE, Replica};
use crate::wire::Wire;
use actor_ports::PortError;
use disk_model::Disk;
use std::alloc::Global;

// Makes the standby's disk one that has no made file.
fn open_copy<L: Wire>(replica: &mut Replica<L>) -> Result<(), PortError>
    requires room { replica.old.unheard ≡ 0 }
    ensures opens { OnOk result (AreDone (opening_calls []) (L.read_traffic replica.old.link) (L.read_traffic replica.new.link)) }
    ensures unheard { OnOk result (replica.new.unheard ≡ 0) }
    ensures link { OnOk result (L.read_faults replica.old.link ≤ L.read_faults replica.new.link) }
    ensures cause { IfErr result (λ e. AttachCause 0 0 (L.read_faults replica.old.link) (L.read_faults replica.new.link) (L.read_traffic replica.old.link) (L.read_traffic replica.new.link) e) }
{
    replica.tell_cut(0)?;
    replica.tell_piece(0, &[0])?;
    replica.tell_sync()
}

// Sends the bytes of the disk from the second on.
fn copy_rest<D: Disk, L: Wire>(
    disk: &mut D,
    replica: &mut Replica<L>,
    piece: &mut Vec<u8>,
) -> Result<(), PortError>
    requires room { replica.old.unheard ≡ 0 }
    ensures sends { SendsRest (D.told disk.old) (L.read_traffic replica.old.link) (L.read_traffic replica.new.link) result }
    ensures same { D.told disk.new ≡ D.told disk.old }
    ensures unheard { OnOk result (replica.new.unheard ≡ 0) }
    ensures counts { D.disk_faults disk.old ≤ D.disk_faults disk.new }
    ensures link { OnOk result (L.read_faults replica.old.link ≤ L.read_faults replica.new.link) }
    ensures cause { IfErr result (λ e. AttachCause (D.disk_faults disk.old) (D.disk_faults disk.new) (L.read_faults replica.old.link) (L.read_faults replica.new.link) (L.read_traffic replica.old.link) (L.read_traffic replica.new.link) e) }
{
    let len = disk.len()?;
    let mut at = 1u64;
    while at < len {
        let most = PIECE.min((len - at) as usize);
        piece.clear();
        let count = disk.read(at, most, piece)?;
        if count == 0 {
            return Ok(());
        }
        replica.tell_piece(at, piece.as_slice())?;
        at += count as u64;
    }
    Ok(())
}

// The first byte of the disk, if it has one.
fn read_first<D: Disk>(disk: &mut D, piece: &mut Vec<u8>) -> Result<Option<u8>, PortError>
    ensures reads { IfOk result (λ first. ReadsFirst (D.told disk.old) first) }
    ensures same { D.told disk.new ≡ D.told disk.old }
    ensures cause { HasCause (D.disk_faults disk.old) (D.disk_faults disk.new) result }
{
    piece.clear();
    disk.read(0, 1, piece)?;
    match piece.as_slice() {
        [] => Ok(None),
        [first, ..] => Ok(Some(*first)),
    }
}

// Sends the bytes behind the first one, if there is one.
fn copy_behind<D: Disk, L: Wire>(
    first: Option<u8>,
    disk: &mut D,
    replica: &mut Replica<L>,
    piece: &mut Vec<u8>,
) -> Result<(), PortError>
    requires first { ReadsFirst (D.told disk.old) first }
    requires room { replica.old.unheard ≡ 0 }
    ensures sends { SendsBehind first (D.told disk.old) (L.read_traffic replica.old.link) (L.read_traffic replica.new.link) result }
    ensures same { D.told disk.new ≡ D.told disk.old }
    ensures unheard { OnOk result (replica.new.unheard ≡ 0) }
    ensures counts { D.disk_faults disk.old ≤ D.disk_faults disk.new }
    ensures link { OnOk result (L.read_faults replica.old.link ≤ L.read_faults replica.new.link) }
    ensures cause { IfErr result (λ e. AttachCause (D.disk_faults disk.old) (D.disk_faults disk.new) (L.read_faults replica.old.link) (L.read_faults replica.new.link) (L.read_traffic replica.old.link) (L.read_traffic replica.new.link) e) }
{
    match first {
        None => Ok(()),
        Some(_) => copy_rest(disk, replica, piece),
    }
}

// Sends the first byte, or cuts the other disk to nothing if there is none.
fn tell_first<L: Wire>(replica: &mut Replica<L>, first: Option<u8>) -> Result<(), PortError>
    requires room { replica.old.unheard ≡ 0 }
    ensures asks { Asks (first_call first) (L.read_traffic replica.old.link) (L.read_traffic replica.new.link) replica.old.unheard replica.new.unheard result }
    ensures cause { HasCause (L.read_faults replica.old.link + replica.old.unheard) (L.read_faults replica.new.link + replica.new.unheard) result }
{
    match first {
        None => replica.tell_cut(0),
        Some(byte) => replica.tell_piece(0, &[byte]),
    }
}

/// Makes the other disk read as this one. Its first byte comes last, behind a sync of all others.
pub(crate) fn copy_disk<D: Disk, L: Wire>(
    alloc: Global,
    disk: &mut D,
    replica: &mut Replica<L>,
) -> Result<(), PortError>
    requires room { replica.old.unheard ≡ 0 }
    ensures attaches { OnOk result (Attaches (D.told disk.old) (L.read_traffic replica.old.link) (L.read_traffic replica.new.link)) }
    ensures same { D.told disk.new ≡ D.told disk.old }
    ensures unheard { OnOk result (replica.new.unheard ≡ 0) }
    ensures cause { IfErr result (λ e. AttachCause (D.disk_faults disk.old) (D.disk_faults disk.new) (L.read_faults replica.old.link) (L.read_faults replica.new.link) (L.read_traffic replica.old.link) (L.read_traffic replica.new.link) e) }
{
    let mut piece = Vec::new(alloc);
    open_copy(replica)?;
    let first = read_first(disk, &mut piece)?;
    copy_behind(first, disk, replica, &mut piece)?;
    replica.tell_sync()?;
    tell_first(replica, first)?;
    replica.tell_sync()
}
