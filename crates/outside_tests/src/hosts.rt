// What a host gives out, over memory and over the system.
use actor_names::Address;
use actor_ports::{MemListen, WITHOUT_END};
use disk_model::{Disk, MemDisk};
use server_ports::{Host, MemHost, SystemHost};
use std::alloc::Global;
use std::fs;
use std::sync::Arc;
use std::sync::atomic::AtomicBool;
use std::test::Fail;

const PATH: &str = "outside_tests_host";

const HERE: Address = Address {
    ip: 0x7f00_0001,
    port: 0,
};

// A host with one disk and no listener.
fn host_of_one_disk(alloc: Global) -> Result<MemHost<MemDisk, MemListen>, Fail> {
    let mut disks = Vec::new(alloc);
    disks.push(MemDisk::new(alloc, b"", &[1])?)?;
    Ok(MemHost::new(alloc, disks, Vec::new(alloc), &[])?)
}

#[test]
fn returned_disk_that_failed_counts_as_fault(rt: HostRuntime) -> Result<(), Fail> {
    let mut host = host_of_one_disk(rt.alloc())?;
    let mut disk = host.open_disk(PATH, true)?;
    assert!(rt; disk.len().is_err());
    assert!(rt; host.open_disk(PATH, true).is_err());
    assert!(rt; host.bind(&HERE).is_err());
    host.done_disk(disk);
    assert!(rt; host.paths().len() == 2 && host.disks().len() == 1);
    Ok(())
}

#[test]
fn system_opens_files_and_binds_ports(rt: HostRuntime) -> Result<(), Fail> {
    let ended = Arc::new(rt.alloc(), AtomicBool::new(false))?;
    let mut host = SystemHost::new(rt.alloc(), rt, ended, WITHOUT_END);
    assert!(rt; host.open_disk(PATH, false).is_err());
    let mut disk = host.open_disk(PATH, true)?;
    assert!(rt; host.open_disk(PATH, false).is_err());
    disk.write_at(0, b"abc")?;
    host.done_disk(disk);
    let mut again = host.open_disk(PATH, false)?;
    assert!(rt; again.len()? == 3);
    host.done_disk(again);
    let port = host.bind(&HERE)?;
    host.done_port(port);
    fs::remove_file(&rt, PATH)?;
    Ok(())
}
