// A source over one of the library's readers.
use actor_ports::{PortError, ReaderSource, Source};
use std::io;
use std::io::{ErrorKind, Read};
use std::test::Fail;

// Gives one byte a call; the first call is interrupted, and the fourth fails.
#[derive(Drop)]
struct Drip<'a> {
    left: &'a [u8],
    calls: u8,
}

impl Read for Drip<'_> {
    fn read(&mut self, buf: &mut [u8]) -> io::Result<usize> {
        self.calls = self.calls.wrapping_add(1);
        match self.calls {
            1 => return Err(io::Error::from(ErrorKind::Interrupted)),
            4 => return Err(io::Error::from(ErrorKind::ConnectionReset)),
            _ => {}
        }
        let Some((first, rest)) = self.left.split_first() else {
            return Ok(0);
        };
        if buf.is_empty() {
            return Ok(0);
        }
        buf[0] = *first;
        self.left = rest;
        Ok(1)
    }
}

#[test]
fn reads_on_after_failure_in_mid_stream(rt: HostRuntime) -> Result<(), Fail> {
    let drip = Drip {
        left: b"abc",
        calls: 0,
    };
    let mut source = ReaderSource::new(rt.alloc(), drip)?;
    let mut into = Vec::new(rt.alloc());
    let wanted = [Ok(1), Ok(1), Err(PortError::Failed), Ok(1), Ok(0)];
    for answer in wanted {
        assert_eq!(rt; source.read(&mut into, 8), answer);
    }
    assert_eq!(rt; into.as_slice(), b"abc".as_slice());
    Ok(())
}

#[test]
fn reads_at_most_one_piece(rt: HostRuntime) -> Result<(), Fail> {
    let bytes = vec![in rt.alloc(); 7u8; 70_000]?;
    let mut source = ReaderSource::new(rt.alloc(), bytes.as_slice())?;
    let mut into = Vec::new(rt.alloc());
    assert_eq!(rt; source.read(&mut into, 100_000), Ok(65_536));
    assert_eq!(rt; source.read(&mut into, 100_000), Ok(4_464));
    assert_eq!(rt; source.read(&mut into, 100_000), Ok(0));
    assert_eq!(rt; into.as_slice(), bytes.as_slice());
    Ok(())
}
