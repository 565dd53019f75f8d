// What a sidecar keeps of its turns with the placement, and how such a turn ends.
use member_core::Ack;
use round_core::PlaceReply;

/// What a sidecar keeps of its turns with the placement.
#[derive(Clone, Copy)]
pub struct PlacementBook {
    /// The last acknowledgement that was sent and not refused.
    pub acked: Option<Ack>,
    /// When the placement was heard last, in milliseconds since 1970.
    pub heard: u64,
}

/// How a turn with the placement ended.
#[derive(Clone, Copy, Debug)]
pub enum TurnEnd {
    /// The frame was sent, and a reply was read that isn't a refusal.
    Next,
    /// The placement refused the frame.
    Refused { reply: PlaceReply },
    /// The placement's node refused it, with this code of a Refused frame: 5 for a disk fault, 6 if it must be opened
    /// again, 8 if its journal is full, at `number` bytes.
    NodeRefused { code: u8, number: u64 },
    /// The bytes read are no reply, from this byte on, counted from 0; or the input ended there, inside a frame.
    BadReply { at: u64 },
    /// A part has stopped.
    Stopped,
    /// The connection failed.
    ConnFault,
    /// There was no memory.
    OutOfMemory,
    /// A part's gate took no further entry.
    Spent { count: u64 },
}
