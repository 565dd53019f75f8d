// How a server ends, and what it prints.
ghost use Rattle.std.specs.Prelude.{◌≡◌, ◌≢◌, ◌<◌, ◌++◌, [], OnOk};
ghost use Rattle.actors_top.specs.Server.{TellsDamage, TellsServer, damaged_line, placement_damage, placement_status, standby_status, store_damage, store_status};

use actor_ports::{PortError, Sink};
use itoa::Buffer;
use placement_command::PlacementEnd;
use standby_command::StandbyEnd;
use std::alloc::{AllocError, Global};
use store_command::StoreEnd;

/// How a server ends, by the status that the program gives to its caller.
#[derive(Clone, Copy)]
pub enum ServerStatus {
    /// As many connections were served as the words say.
    Done = 0,
    /// The sink failed while the place of a damage was written.
    SinkFault = 5,
    /// The disk wasn't opened, or it failed; or a placement's standby has.
    DiskFault = 6,
    /// The port wasn't bound, or it failed; or a placement's standby wasn't reached.
    PortFault = 7,
    /// Out of memory.
    OutOfMemory = 8,
    /// The file isn't a journal of this server; the place of the damage was printed.
    Damaged = 9,
}

/// Appends the line that says where a journal is damaged.
fn push_damage(text: &mut Vec<u8>, offset: u64) -> Result<(), AllocError>
    ensures { OnOk result (text.new.items ≡ text.old.items ++ damaged_line offset) }
{
    let mut buffer = Buffer::new();
    text.extend_from_slice(b"damaged ")?;
    text.extend_from_slice(buffer.format(offset).as_bytes())?;
    text.extend_from_slice(b"\n")
}

// Prints where a journal is damaged.
fn tell_damage<W: Sink>(alloc: Global, offset: u64, output: &mut W) -> ServerStatus
    ensures tells { TellsDamage offset result (W.contents output.old) (W.contents output.new) }
    ensures cause { result ≡ ServerStatus.SinkFault → W.write_faults output.old < W.write_faults output.new }
{
    let mut text = Vec::new(alloc);
    if push_damage(&mut text, offset).is_err() {
        return ServerStatus::OutOfMemory;
    }
    match output.write(text.as_slice()) {
        Ok(()) => ServerStatus::Damaged,
        Err(PortError::Failed) => ServerStatus::SinkFault,
        Err(PortError::OutOfMemory) => ServerStatus::OutOfMemory,
    }
}

/// Tells how a placement ended: its status, and where its journal is damaged.
pub(crate) fn tell_placement<W: Sink>(
    alloc: Global,
    end: PlacementEnd,
    output: &mut W,
) -> ServerStatus
    ensures tells { TellsServer (placement_damage end) (placement_status end) result (W.contents output.old) (W.contents output.new) }
    ensures cause { result ≡ ServerStatus.SinkFault → W.write_faults output.old < W.write_faults output.new }
    ensures disk { result ≡ ServerStatus.DiskFault → end ≡ PlacementEnd.DiskFault }
    ensures port { result ≡ ServerStatus.PortFault → end ≡ PlacementEnd.PortFault }
    ensures memory { end ≡ PlacementEnd.OutOfMemory → result ≡ ServerStatus.OutOfMemory }
{
    match end {
        PlacementEnd::Done => ServerStatus::Done,
        PlacementEnd::DiskFault => ServerStatus::DiskFault,
        PlacementEnd::PortFault => ServerStatus::PortFault,
        PlacementEnd::OutOfMemory => ServerStatus::OutOfMemory,
        PlacementEnd::Damaged { offset } => tell_damage(alloc, offset, output),
    }
}

/// Tells how a store ended: its status, and where its journal is damaged.
pub(crate) fn tell_store<W: Sink>(alloc: Global, end: StoreEnd, output: &mut W) -> ServerStatus
    ensures tells { TellsServer (store_damage end) (store_status end) result (W.contents output.old) (W.contents output.new) }
    ensures cause { result ≡ ServerStatus.SinkFault → W.write_faults output.old < W.write_faults output.new }
    ensures disk { result ≡ ServerStatus.DiskFault → end ≡ StoreEnd.DiskFault }
    ensures port { result ≡ ServerStatus.PortFault → end ≡ StoreEnd.PortFault }
    ensures memory { end ≡ StoreEnd.OutOfMemory → result ≡ ServerStatus.OutOfMemory }
{
    match end {
        StoreEnd::Done => ServerStatus::Done,
        StoreEnd::DiskFault => ServerStatus::DiskFault,
        StoreEnd::PortFault => ServerStatus::PortFault,
        StoreEnd::OutOfMemory => ServerStatus::OutOfMemory,
        StoreEnd::Damaged { offset } => tell_damage(alloc, offset, output),
    }
}

/// The status of a standby's end. Nothing is printed.
pub(crate) fn standby_status(end: StandbyEnd) -> ServerStatus
    ensures is { result ≡ standby_status end }
    ensures sink { result ≢ ServerStatus.SinkFault }
    ensures disk { result ≡ ServerStatus.DiskFault → end ≡ StandbyEnd.DiskFault }
    ensures port { result ≡ ServerStatus.PortFault → end ≡ StandbyEnd.PortFault }
{
    match end {
        StandbyEnd::Done => ServerStatus::Done,
        StandbyEnd::DiskFault => ServerStatus::DiskFault,
        StandbyEnd::PortFault => ServerStatus::PortFault,
        StandbyEnd::OutOfMemory => ServerStatus::OutOfMemory,
    }
}
