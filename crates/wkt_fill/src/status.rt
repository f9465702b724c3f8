//! Why there are no arrays, as a number.

/// There was no room for them.
pub(crate) const FULL: u32 = 22;
/// A collection, which has no flat arrays.
pub(crate) const FILLER_NOT_FLAT: u32 = 24;
/// A number of more units than 64 bits hold.
pub(crate) const FILLER_TOO_LARGE: u32 = 25;
