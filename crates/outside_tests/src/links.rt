// A link over which nothing comes, and a port that is closed, over TCP on one machine.
use actor_ports::{Dial, Listen, PortError, Sink, Source, TcpDial, TcpListen, Waits};
use std::net::{Ipv4Addr, SocketAddr, TcpListener};
use std::sync::Arc;
use std::sync::atomic::AtomicBool;
use std::test::Fail;

/// 127.0.0.1.
const HERE: u32 = 0x7f00_0001;

#[test]
fn silent_link_and_closed_port_fail(rt: HostRuntime) -> Result<(), Fail> {
    let bound = TcpListener::bind(&rt, SocketAddr::from((Ipv4Addr::LOCALHOST, 0)))?;
    let port = bound.local_addr()?.port();
    let ended = Arc::new(rt.alloc(), AtomicBool::new(false))?;
    let theirs = Arc::try_clone(&ended)?;
    let mut listener = TcpListen::new(rt.alloc(), rt, theirs, bound, Waits::quiet(50));
    let mut dialler = TcpDial::new(rt.alloc(), rt, ended, Some(5_000), Waits::quiet(5_000));
    let mut here = dialler.dial(HERE, port)?;
    let mut there = listener.accept()?;
    let mut into = Vec::new(rt.alloc());
    // No byte comes in time.
    assert_eq!(rt; there.read(&mut into, 100), Err(PortError::Failed));
    assert_eq!(rt; there.write(b"reply"), Ok(()));
    drop(there);
    assert_eq!(rt; here.read(&mut into, 5), Ok(5));
    assert_eq!(rt; here.read(&mut into, 5), Ok(0));
    dialler.done(here);
    // No connection is wanted any more.
    let mut last = dialler.dial(HERE, port)?;
    dialler.end_links();
    assert_eq!(rt; last.write(b"more"), Err(PortError::Failed));
    assert_eq!(rt; last.read(&mut into, 5), Err(PortError::Failed));
    listener.close();
    assert!(rt; listener.accept().is_err());
    assert_eq!(rt; into.as_slice(), b"reply".as_slice());
    drop(listener);
    let mut other = dialler.another()?;
    assert_eq!(rt; other.dial(HERE, port).err(), Some(PortError::Failed));
    Ok(())
}

#[test]
fn kept_link_is_given_out_again_while_it_is_open(rt: HostRuntime) -> Result<(), Fail> {
    let bound = TcpListener::bind(&rt, SocketAddr::from((Ipv4Addr::LOCALHOST, 0)))?;
    let port = bound.local_addr()?.port();
    let ended = Arc::new(rt.alloc(), AtomicBool::new(false))?;
    let theirs = Arc::try_clone(&ended)?;
    let mut listener = TcpListen::new(rt.alloc(), rt, theirs, bound, Waits::quiet(5_000));
    let mut dialler = TcpDial::new(rt.alloc(), rt, ended, Some(5_000), Waits::quiet(5_000));
    let first = dialler.dial(HERE, port)?;
    let mut there = listener.accept()?;
    dialler.keep(first);
    let mut again = dialler.dial(HERE, port)?;
    again.write(b"a")?;
    let mut into = Vec::new(rt.alloc());
    assert_eq!(rt; there.read(&mut into, 5), Ok(1));
    dialler.keep(again);
    drop(there);
    let mut fresh = dialler.dial(HERE, port)?;
    let mut taken = listener.accept()?;
    fresh.write(b"b")?;
    assert_eq!(rt; taken.read(&mut into, 5), Ok(1));
    assert_eq!(rt; into.as_slice(), b"ab".as_slice());
    Ok(())
}
