// Reads and writes of a connection, specified by what went over it.
ghost use Rattle.std.specs.Prelude.{◌≡◌, ◌<◌, ◌≤◌, ◌++◌, [], List, ℕ, length, IfOk};
ghost use Rattle.actor_ports.specs.Port.{HasCause};
ghost use Rattle.http_edge.specs.Carry.{Over, Writes, Reads};

use actor_ports::{Conn, PortError};

/// Writes all of the bytes.
pub fn send<C: Conn>(conn: &mut C, bytes: &[u8]) -> Result<(), PortError>
    ensures writes { Writes (C.read_traffic conn.old) (C.read_traffic conn.new) bytes.now result }
    ensures cause { HasCause (C.read_faults conn.old) (C.read_faults conn.new) result }
{
    conn.write(bytes)
}

/// Appends the next bytes, at most `most`, and answers how many; 0 only at the end of the input.
pub fn receive<C: Conn>(conn: &mut C, into: &mut Vec<u8>, most: usize) -> Result<usize, PortError>
    requires { 0 < most }
    ensures most { IfOk result (λ n. n ≤ most) }
    ensures reads { Reads (C.read_traffic conn.old) (C.read_traffic conn.new) into.old.items into.new.items result }
    ensures cause { HasCause (C.read_faults conn.old) (C.read_faults conn.new) result }
{
    conn.read(into, most)
}
