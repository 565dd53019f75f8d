// A placement that answers two more turns and no other, and the moments that the clocks show meanwhile.

/// The moment at which the second answer comes, and the one that the clocks show in the end, in milliseconds.
#[derive(Clone, Copy, PartialEq, Eq)]
pub(crate) struct Silence {
    pub(crate) answered_at: u64,
    pub(crate) ends_at: u64,
}

// The moment at which the second of these turns begins, from which the lease counts.
const LAST_TURN_MS: u64 = 1_000;

// The last moment of that lease.
const HOLDS_MS: u64 = 5_999;

// The frames that are answered, and those until the last one that comes at the lease's last moment.
const ANSWERED: u64 = 2;

const HELD: u64 = 202;

impl Silence {
    /// The moment once the placement has this frame, from 0.
    pub(crate) fn moment_at(&self, frame: u64) -> u64 {
        if frame == 0 {
            return LAST_TURN_MS;
        }
        if frame < ANSWERED {
            return self.answered_at;
        }
        if frame < HELD {
            return HOLDS_MS;
        }
        self.ends_at
    }

    /// Whether this frame is answered.
    pub(crate) fn answers(&self, frame: u64) -> bool {
        frame < ANSWERED
    }
}
