//! Well-known text for callers in C: `include/wkt.h` declares these functions, and says what each returns.
//!
//! Below stands `wkt_calls`, whose calls take no memory; above, the libraries for other languages.
//!
//! Each call returns a status: 0 where it is done, 1 to 14 where a text is refused, which says why, and 20 or
//! more for the rest. Where it isn't 0, the caller's buffers are as they were.
#![tactic(auto)]

mod dialects;
mod exports;
mod exports_arrays;
mod exports_dialects;
mod exports_events;
mod exports_explain;
mod exports_short;
