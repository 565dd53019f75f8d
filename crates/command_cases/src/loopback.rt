// The two servers over TCP, at a port of 127.0.0.1 that the system gives, over disks in memory.
mod caller;
mod case;
mod host;
mod link;

pub(crate) use case::answer;
