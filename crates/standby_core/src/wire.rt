// A connection, as a mirror uses one.
ghost use Rattle.std.specs.Prelude.{◌≡◌, ◌≤◌, ◌<◌, option_map, IfOk};
ghost use Rattle.actor_ports.specs.Port.{HasCause};
ghost use Rattle.actor_ports.specs.Traffic.{Traffic};
ghost use Rattle.http_edge.specs.Carry.{Reads, Writes};

use actor_ports::{Conn, PortError, Sink, Source};

/// What a mirror asks of its link: a connection, which need not go to another thread. Each `Conn` is one.
pub trait Wire: Source + Sink + Drop {
    ghost one_count: { (c : Self) → Self.read_faults c ≡ Self.write_faults c };

    ghost one_traffic: { (c : Self) → Self.read_traffic c ≡ Self.write_traffic c };

    ghost left_told: { (c : Self) → Self.remaining c ≡ option_map (λ (t : Traffic). t.left) (Self.read_traffic c) };
}

impl<C: Conn> Wire for C {
    ghost one_count = { C.one_count };

    ghost one_traffic = { C.one_traffic };

    ghost left_told = { C.left_told };
}

/// Writes all of the bytes.
pub(crate) fn send<L: Wire>(link: &mut L, bytes: &[u8]) -> Result<(), PortError>
    ensures writes { Writes (L.read_traffic link.old) (L.read_traffic link.new) bytes.now result }
    ensures cause { HasCause (L.read_faults link.old) (L.read_faults link.new) result }
{
    link.write(bytes)
}

/// Appends the next bytes, at most `most`, and answers how many; 0 only at the end of the input.
pub(crate) fn receive<L: Wire>(
    link: &mut L,
    into: &mut Vec<u8>,
    most: usize,
) -> Result<usize, PortError>
    requires { 0 < most }
    ensures most { IfOk result (λ n. n ≤ most) }
    ensures reads { Reads (L.read_traffic link.old) (L.read_traffic link.new) into.old.items into.new.items result }
    ensures cause { HasCause (L.read_faults link.old) (L.read_faults link.new) result }
{
    link.read(into, most)
}
