// What is in memory: sources and sinks in threads, and another dialler and clock.
use actor_ports::{Clock, Dial, MemClock, MemConn, MemDial, MemSink, MemSource, Sink, Source};
use std::test::Fail;
use std::thread::join;

#[test]
fn source_and_sink_go_to_threads(rt: HostRuntime) -> Result<(), Fail> {
    let mut source = MemSource::new(rt.alloc(), b"abc", &[])?;
    let mut sink = MemSink::new(rt.alloc(), &[])?;
    let mut into = Vec::new(rt.alloc());
    let (read, written) = join(&rt, || source.read(&mut into, 8), || sink.write(b"xyz"));
    assert_eq!(rt; read, Ok(3));
    assert_eq!(rt; written, Ok(()));
    assert_eq!(rt; into.as_slice(), b"abc".as_slice());
    assert_eq!(rt; sink.bytes(), b"xyz".as_slice());
    Ok(())
}

#[test]
fn other_dialler_and_clock_have_what_is_left(rt: HostRuntime) -> Result<(), Fail> {
    let mut links = Vec::new(rt.alloc());
    links.push(MemConn::new(rt.alloc(), b"one", &[])?)?;
    let dialler = MemDial::new(rt.alloc(), links, &[])?;
    let mut other = dialler.another()?;
    let mut link = other.dial(5, 50)?;
    let mut into = Vec::new(rt.alloc());
    assert_eq!(rt; link.read(&mut into, 8), Ok(3));
    assert_eq!(rt; into.as_slice(), b"one".as_slice());
    let mut clock = MemClock::new(rt.alloc(), 5, &[9])?;
    assert_eq!(rt; clock.now_ms(), 5);
    let mut other = clock.another()?;
    assert_eq!(rt; other.now_ms(), 9);
    Ok(())
}
