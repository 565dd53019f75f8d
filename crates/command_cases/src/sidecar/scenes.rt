// The bytes of the fakes. An address of 127.0.0.1 is 7F000001, and the sidecar listens for others at port 3501 (0DAD).

/// No bytes.
pub(crate) const NOTHING: &[u8] = b"";

/// Calls of two actors. Of the hosts `n1` and `n2` the first actor is `n2`'s.
pub(crate) const CALL: &[u8] =
    b"PUT /v1.0/actors/order/k1/method/add HTTP/1.1\r\nContent-Length: 1\r\n\r\n5";

pub(crate) const OTHER_CALL: &[u8] =
    b"PUT /v1.0/actors/order/k2/method/add HTTP/1.1\r\nContent-Length: 1\r\n\r\n5";

/// The application's configuration, its answer to a call, and to the deactivation of an actor.
pub(crate) const CONFIG: &[u8] =
    b"HTTP/1.1 200 OK\r\nContent-Length: 22\r\n\r\n{\"entities\":[\"order\"]}";

pub(crate) const RESULT: &[u8] = b"HTTP/1.1 200 OK\r\nContent-Length: 2\r\n\r\n47";

pub(crate) const INACTIVE: &[u8] = b"HTTP/1.1 200 OK\r\nContent-Length: 0\r\n\r\n";

/// Where the kind stands in a frame, and the kinds of a frame that leaves the placement and of one that asks for reminders.
pub(crate) const KIND_AT: usize = 4;

pub(crate) const LEAVE: u8 = 4;

pub(crate) const DUE: u8 = 38;

/// The store's boot 1, and that no reminder is due.
pub(crate) const BOOTED: &[u8] = b"\x00\x00\x00\x09\x30\x00\x00\x00\x00\x00\x00\x00\x01";

pub(crate) const NONE_DUE: &[u8] = b"\x00\x00\x00\x03\x35\x00\x00";

/// The placement's first round, of which the sidecar is the only host.
pub(crate) const LOCK_1: &[u8] = b"\x00\x00\x00\x09\x10\x00\x00\x00\x00\x00\x00\x00\x01";

pub(crate) const UPDATE_1: &[u8] =
    b"\x00\x00\x00\x30\x11\x00\x00\x00\x00\x00\x00\x00\x01\x00\x01\x07default\x02n1\x00\x00\x00\x00\x00\x00\x00\x01\x04shop\x7f\x00\x00\x01\x0d\xad\x01\x05order";

pub(crate) const UNLOCK_1: &[u8] = b"\x00\x00\x00\x09\x12\x00\x00\x00\x00\x00\x00\x00\x01";

/// The beginning of its second round, with `n2/2` beside the sidecar.
pub(crate) const LOCK_2: &[u8] = b"\x00\x00\x00\x09\x10\x00\x00\x00\x00\x00\x00\x00\x02";

pub(crate) const UPDATE_2: &[u8] =
    b"\x00\x00\x00\x55\x11\x00\x00\x00\x00\x00\x00\x00\x02\x00\x02\x07default\x02n1\x00\x00\x00\x00\x00\x00\x00\x01\x04shop\x7f\x00\x00\x01\x0d\xad\x01\x05order\x07default\x02n2\x00\x00\x00\x00\x00\x00\x00\x02\x04shop\x7f\x00\x00\x01\x0d\xae\x01\x05order";

/// That it has nothing to say, that the sidecar is no member any more, and that it has left.
pub(crate) const IDLE: &[u8] = b"\x00\x00\x00\x01\x13";

pub(crate) const NOT_MEMBER: &[u8] = b"\x00\x00\x00\x0a\x14\x03\x00\x00\x00\x00\x00\x00\x00\x01";

pub(crate) const GONE: &[u8] = b"\x00\x00\x00\x01\x15";
