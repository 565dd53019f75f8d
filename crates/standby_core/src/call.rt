// A call on a disk.

/// A call on a disk that a standby makes too. Places and lengths are in bytes from the start of the file.
#[derive(Drop)]
pub enum MirrorCall {
    /// Write these bytes over those from `at` on.
    Write { at: u64, bytes: Vec<u8> },
    /// Cut the file to `len` bytes.
    Cut { len: u64 },
    /// Put all changes on the disk.
    Sync,
}
