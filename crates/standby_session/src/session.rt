// A session of a standby: the calls of one connection, one after the other.
ghost use Rattle.frame_session.specs.Sessions.{SessionCause};
ghost use Rattle.standby_session.specs.Sessions.{IsStandby, BrokenCause};

use crate::calls::take_next;
use crate::taken::taken_end;
use actor_ports::{Conn, SessionEnd};
use disk_model::Disk;
use frame_session::{Fetched, cut_end, end_of_input, fetch_piece};
use frame_wire::FrameReader;
use std::alloc::Global;
use std::sync::Wait;

/// Makes the calls of a connection on the disk, each in its order, until the connection ends; after each one that was done,
/// and after a sync that succeeded, it answers MirrorDone. `Broken` comes exactly if a call failed: MirrorFault is its
/// answer, whether or not it could be written. Any other frame, and a write or a cut past the end, is `Malformed`.
/// `requests` is the number of calls whose answers were written whole; after 2^64 - 1 of them comes `Spent`.
pub fn standby_session<R: Wait, C: Conn, D: Disk>(
    rt: &R,
    alloc: Global,
    disk: &mut D,
    conn: &mut C,
) -> SessionEnd
    ensures session { IsStandby (D.told disk.old) (D.told disk.new) (C.read_traffic conn.old) (C.read_traffic conn.new) result }
    ensures link { SessionCause (C.read_faults conn.old) (C.read_faults conn.new) result }
    ensures broken { BrokenCause (D.disk_faults disk.old) (D.disk_faults disk.new) result }
{
    let mut reader = FrameReader::new(alloc);
    let mut piece = Vec::new(alloc);
    let mut faulty = false;
    let mut requests = 0u64;
    for _ in rt.forever() {
        if requests == u64::MAX {
            return SessionEnd::Spent {
                requests,
                count: requests,
            };
        }
        match reader.next() {
            Some(frame) => {
                let taken = take_next(frame, disk, conn);
                match taken_end(taken, requests) {
                    Some(end) => return end,
                    None => requests += 1,
                }
            }
            None => {
                if faulty {
                    return SessionEnd::Malformed { requests };
                }
                match fetch_piece(conn, &mut reader, &mut piece) {
                    Err(error) => return cut_end(error, requests),
                    Ok(Fetched::Ended) => return end_of_input(reader, requests),
                    Ok(Fetched::Faulty) => faulty = true,
                    Ok(Fetched::Fed) => {}
                }
            }
        }
    }
    unreachable!()
}
