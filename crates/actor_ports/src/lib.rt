// The outside as a program sees it: where bytes come from and where they go.
//
// A call answers a fault only if the object's own count of faults rose in that call. If an object
// reports its bytes, the clauses say which were taken or written. The implementations in memory report
// everything; those over the library's readers and writers report what the reader or writer reports.
// It depends on std alone, and on thiserror for the texts of its error.
#![tactic(auto)]

mod memory;
mod port;
mod real;
mod session;
mod waits;

pub use memory::{MemClock, MemConn, MemDial, MemListen, MemSink, MemSource};
pub use port::{Clock, Conn, Dial, Listen, PortError, Sink, Source};
pub use real::{ReaderSource, StreamConn, SystemClock, TcpDial, TcpListen, WriterSink};
pub use session::SessionEnd;
pub use waits::{WITHOUT_END, Waits};
