// The limit of numbers that are drawn or counted one by one.

/// The last of the numbers that are drawn or counted one by one, 2^62: boots of nodes, versions of tables, calls of a
/// part, registrations of timers, events.
pub const LAST_NUMBER: u64 = 1 << 62;
