// The disk over a file, on a real file and on one that fails.
use actor_ports::PortError;
use disk_model::{Disk, FileDisk};
use std::fs::{File, Metadata, OpenFile, OpenOptions};
use std::io::ErrorKind;
use std::os::unix::fs::FileExt;
use std::test::Fail;
use std::{fs, io};

const PATH: &str = "outside_tests_disk";

fn open_file(rt: &HostRuntime) -> io::Result<File> {
    OpenOptions::new()
        .read(true)
        .write(true)
        .create(true)
        .truncate(true)
        .open(rt, PATH)
}

#[test]
fn file_gives_back_what_was_written(rt: HostRuntime) -> Result<(), Fail> {
    let mut disk = FileDisk::new(rt.alloc(), open_file(&rt)?)?;
    let mut into = Vec::from_slice(rt.alloc(), b">")?;
    assert_eq!(rt; disk.len(), Ok(0));
    let long = vec![in rt.alloc(); 7u8; 70_000]?;
    disk.write_at(0, long.as_slice())?;
    disk.write_at(1, b"abc")?;
    disk.sync()?;
    assert_eq!(rt; disk.len(), Ok(70_000));
    assert_eq!(rt; disk.read(0, 70_001, &mut into), Ok(70_000));
    assert!(rt; into.as_slice().starts_with(b">\x07abc\x07"));
    disk.cut(3)?;
    assert_eq!(rt; disk.len(), Ok(3));
    into.clear();
    assert_eq!(rt; disk.read(1, 9, &mut into), Ok(2));
    assert_eq!(rt; disk.read(3, 9, &mut into), Ok(0));
    assert_eq!(rt; disk.read(u64::MAX, 9, &mut into), Err(PortError::Failed));
    assert_eq!(rt; into.as_slice(), b"ab".as_slice());
    drop(disk);
    fs::remove_file(&rt, PATH)?;
    Ok(())
}

// A file that gives and takes one byte a call. It fails at its fourth byte, and at all but reads and writes.
#[derive(Drop)]
struct Frail;

fn refused() -> io::Error {
    io::Error::from(ErrorKind::BrokenPipe)
}

impl FileExt for Frail {
    fn read_at(&self, buf: &mut [u8], offset: u64) -> io::Result<usize> {
        if offset == 3 {
            return Err(refused());
        }
        if buf.is_empty() {
            return Ok(0);
        }
        buf[0] = b'a';
        Ok(1)
    }

    fn write_at(&self, buf: &[u8], offset: u64) -> io::Result<usize> {
        if offset == 3 {
            return Err(refused());
        }
        Ok(buf.len().min(1))
    }
}

impl OpenFile for Frail {
    fn metadata(&self) -> io::Result<Metadata> {
        Err(refused())
    }

    fn set_len(&self, _size: u64) -> io::Result<()> {
        Err(refused())
    }

    fn sync_all(&self) -> io::Result<()> {
        Err(refused())
    }

    fn sync_data(&self) -> io::Result<()> {
        Err(refused())
    }
}

#[test]
fn file_that_fails_is_told(rt: HostRuntime) -> Result<(), Fail> {
    let mut disk = FileDisk::new(rt.alloc(), Frail)?;
    let mut into = Vec::new(rt.alloc());
    assert_eq!(rt; disk.read(0, 3, &mut into), Ok(3));
    assert_eq!(rt; disk.read(1, 3, &mut into), Err(PortError::Failed));
    assert_eq!(rt; into.as_slice(), b"aaa".as_slice());
    assert_eq!(rt; disk.write_at(0, b"abc"), Ok(()));
    assert_eq!(rt; disk.write_at(2, b"abc"), Err(PortError::Failed));
    assert_eq!(rt; disk.len(), Err(PortError::Failed));
    assert_eq!(rt; disk.cut(0), Err(PortError::Failed));
    assert_eq!(rt; disk.sync(), Err(PortError::Failed));
    Ok(())
}
