// A window on the bytes of a file: what was read at one place, so that not every small look reads the disk.
ghost use Rattle.std.specs.Prelude.{◌≡◌, ◌≤◌, ℕ, ◌+◌, ◌-◌, true, [], length, take, drop, OnOk, IfErr, Some};
ghost use Rattle.disk_model.specs.Disk.{DiskState};
ghost use Rattle.tx_journal.specs.Journal.{Costs, IsPortFault};
ghost use Rattle.tx_journal.specs.Window.{IsShown, ShowsFront};

use crate::error::JournalError;
use crate::scan::read_at;
use disk_model::Disk;
use std::alloc::Global;

// The bytes that were read from the place `at` on.
#[derive(Drop)]
pub(crate) struct Window {
    pub(crate) at: u64,
    pub(crate) bytes: Vec<u8>,
}

// A window that shows nothing yet.
pub(crate) fn closed(alloc: Global) -> Window
    ensures { result.bytes.items ≡ [] }
{
    Window {
        at: 0,
        bytes: Vec::new(alloc),
    }
}

// Whether the window shows the five bytes from `at` on.
fn has_front(window: &Window, at: u64) -> bool
    ensures { result ≡ true → (window.now.at ≤ at) × (at - window.now.at + 5 ≤ length window.now.bytes.items) }
{
    let len = window.bytes.len() as u64;
    window.at <= at && 5 <= len && at - window.at <= len - 5
}

// Moves the window to `at`, unless it shows the five bytes from there on.
pub(crate) fn show<D: Disk>(
    disk: &mut D,
    at: u64,
    width: usize,
    window: &mut Window,
) -> Result<(), JournalError>
    requires wide { 5 ≤ width }
    requires shown { IsShown (D.told disk.old) window.old.at window.old.bytes.items }
    ensures shown { IsShown (D.told disk.new) window.new.at window.new.bytes.items }
    ensures place { OnOk result ((window.new.at ≤ at) × (at - window.new.at ≤ length window.new.bytes.items)) }
    ensures front { (d : DiskState) → D.told disk.old ≡ Some d → OnOk result (ShowsFront window.new.at window.new.bytes.items at d) }
    ensures errors { IfErr result IsPortFault }
    ensures same { D.told disk.new ≡ D.told disk.old }
    ensures cause { Costs (D.disk_faults disk.old) (D.disk_faults disk.new) result }
{
    if has_front(window, at) {
        return Ok(());
    }
    window.at = at;
    read_at(disk, at, width, &mut window.bytes)
}

// The bytes that the window shows from `at` on, at most five.
pub(crate) fn front_at(window: &Window, at: u64) -> &[u8]
    requires { (window.now.at ≤ at) × (at - window.now.at ≤ length window.now.bytes.items) }
    ensures { result.now ≡ take 5 (drop (at - window.now.at) window.now.bytes.items) }
{
    let from = (at - window.at) as usize;
    let behind = &window.bytes[from..];
    let most = behind.len().min(5);
    &behind[..most]
}
