// What a drill counts.

/// What a drill counts.
#[derive(Clone, Copy)]
pub struct DrillCounts {
    /// The steps.
    pub steps: u64,
    /// The boots that were drawn.
    pub boots: u64,
    /// The messages that were added.
    pub messages: u64,
    /// The turns that began.
    pub begun: u64,
    /// The turns that are open at the end.
    pub open_turns: u64,
    /// The last version that the placement used in the space `default`, 0 if it used none.
    pub version: u64,
}
