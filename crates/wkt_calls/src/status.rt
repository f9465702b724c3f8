//! What a call returns, as a number.
/// Done.
pub const DONE: u32 = 0;
/// A text isn't UTF-8.
pub const NOT_TEXT: u32 = 20;
/// A buffer of the caller's is too small; the sizes that are needed are returned.
pub const SMALL: u32 = 21;
/// Out of memory.
pub const MEMORY: u32 = 22;
/// There are no numbers of so many places here.
pub const NO_PLACES: u32 = 23;
/// A collection, which has no flat arrays.
pub const NOT_FLAT: u32 = 24;
/// A number of more units than 64 bits hold.
pub const TOO_LARGE: u32 = 25;
/// The arrays are of no geometry.
pub const NOT_ARRAYS: u32 = 26;
/// The offsets, the bits or the sizes are of no column.
pub const NOT_COLUMN: u32 = 27;
/// A row of a column is null.
pub const NULL_ROW: u32 = 28;
/// A text that was to be explained isn't refused.
pub const ACCEPTED: u32 = 29;
/// More than white space follows the geometry, and a whole text is asked for.
pub const NOT_WHOLE: u32 = 30;
