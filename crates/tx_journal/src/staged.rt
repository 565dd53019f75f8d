// Whether a payload is in a batch.

/// What came of a payload that was given to a batch.
#[derive(Clone, Copy, Debug, PartialEq, Eq)]
pub enum Staged {
    /// It is the last of the batch.
    Added,
    /// The batch has no room for it, and stays as it was. It isn't empty: any payload has room in an empty one.
    NoRoom,
}
