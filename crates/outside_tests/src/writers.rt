// A sink over one of the library's writers.
use actor_ports::{PortError, Sink, WriterSink};
use std::alloc::Global;
use std::io;
use std::io::{ErrorKind, Write};
use std::test::Fail;

// Takes one byte a call; the first call is interrupted, the fifth fails and the seventh takes nothing.
#[derive(Drop)]
struct Narrow {
    held: Vec<u8>,
    calls: u8,
    may_flush: bool,
}

impl Write for Narrow {
    fn write(&mut self, buf: &[u8]) -> io::Result<usize> {
        self.calls = self.calls.wrapping_add(1);
        match self.calls {
            1 => return Err(io::Error::from(ErrorKind::Interrupted)),
            5 => return Err(io::Error::from(ErrorKind::BrokenPipe)),
            7 => return Ok(0),
            _ => {}
        }
        let Some(first) = buf.first() else {
            return Ok(0);
        };
        self.held.push(*first)?;
        Ok(1)
    }

    fn flush(&mut self) -> io::Result<()> {
        if self.may_flush {
            Ok(())
        } else {
            Err(io::Error::from(ErrorKind::BrokenPipe))
        }
    }
}

fn make_narrow(alloc: Global, may_flush: bool) -> Narrow {
    Narrow {
        held: Vec::new(alloc),
        calls: 0,
        may_flush,
    }
}

#[test]
fn writes_front_until_failure(rt: HostRuntime) -> Result<(), Fail> {
    let mut narrow = make_narrow(rt.alloc(), true);
    let mut sink = WriterSink::new(&mut narrow);
    let wanted = [
        Ok(()),
        Err(PortError::Failed),
        Err(PortError::Failed),
        Ok(()),
    ];
    for answer in wanted {
        assert_eq!(rt; sink.write(b"ab"), answer);
    }
    drop(sink);
    assert_eq!(rt; narrow.held.as_slice(), b"abaaab".as_slice());
    Ok(())
}

#[test]
fn refused_flush_is_failure(rt: HostRuntime) {
    let mut sink = WriterSink::new(make_narrow(rt.alloc(), false));
    assert_eq!(rt; sink.write(b"a"), Err(PortError::Failed));
}
