// The two disks of a store, as they are given back.
ghost use Rattle.std.specs.Prelude.{◌≡◌, ◌<◌, ◌≤◌, ◌+◌, false, [], ◌∷◌, IsTrue};
ghost use Rattle.server_ports.specs.Hosts.{Hands};
ghost use Rattle.store_command.specs.Runs.{given_back, sides_told};

use fence_rows::Fenced;
use server_ports::Host;

/// Gives back two disks, and answers whether one has failed.
pub(crate) fn give_both<H: Host>(host: &mut H, first: H::Store, second: H::Store) -> bool
    requires { 1 < H.disks_out host.old }
    ensures failed { IsTrue result → H.open_faults host.old < H.open_faults host.new }
    ensures quiet { result ≡ false → H.open_faults host.new ≡ H.open_faults host.old }
    ensures first { 0 < H.Store.disk_faults first → H.open_faults host.old < H.open_faults host.new }
    ensures second { 0 < H.Store.disk_faults second → H.open_faults host.old < H.open_faults host.new }
    ensures never_falls { H.open_faults host.old ≤ H.open_faults host.new }
    ensures out { H.disks_out host.old ≡ H.disks_out host.new + 2 }
    ensures ports { (H.ports_out host.new ≡ H.ports_out host.old) × (H.bind_faults host.new ≡ H.bind_faults host.old) }
    ensures asks { H.asked host.new ≡ H.asked host.old }
    ensures hands { Hands (H.handed host.old) (given_back (H.Store.told first ∷ H.Store.told second ∷ [])) (H.handed host.new) }
{
    let first_failed = H::disk_failed(&first);
    let second_failed = H::disk_failed(&second);
    host.done_disk(first);
    host.done_disk(second);
    first_failed || second_failed
}

/// Gives back the disks of a store, and answers whether one has failed.
pub(crate) fn give_back<H: Host>(host: &mut H, store: Fenced<H::Store>) -> bool
    requires { 1 < H.disks_out host.old }
    ensures failed { IsTrue result → H.open_faults host.old < H.open_faults host.new }
    ensures quiet { result ≡ false → H.open_faults host.new ≡ H.open_faults host.old }
    ensures never_falls { H.open_faults host.old ≤ H.open_faults host.new }
    ensures out { H.disks_out host.old ≡ H.disks_out host.new + 2 }
    ensures ports { (H.ports_out host.new ≡ H.ports_out host.old) × (H.bind_faults host.new ≡ H.bind_faults host.old) }
    ensures asks { H.asked host.new ≡ H.asked host.old }
    ensures hands { Hands (H.handed host.old) (given_back (sides_told store.journal)) (H.handed host.new) }
{
    let (first, second) = store.close();
    match second {
        Some(second) => give_both(host, first, second),
        None => unreachable!(),
    }
}
