// Lets values go.

/// Lets a value go, in a call of its own.
pub(crate) fn end<T: Drop>(_value: T) {}
