//! The calls on well-known text that take no memory: each works in rooms of its caller's.
//!
//! Below stand `wkt_canonical`, `wkt_explain`, `wkt_fill` and `wkt_lines`; above, the library for C, which makes rooms for
//! them, and the module for WebAssembly, whose callers pass them.
//!
//! A status is 0 where a call is done, 1 to 14 where a text is refused, which says why, and 20 or more for the rest.
#![tactic(auto)]

pub mod arrays_call;
pub mod canonical;
pub mod column;
pub mod column_arrays;
pub mod column_texts;
pub mod compare;
pub mod dialects;
pub mod events_call;
pub mod explain;
pub mod fill;
pub mod flat;
pub mod given_text;
pub mod infer;
mod joined;
pub mod lines;
mod list;
pub mod options;
pub mod sizes;
pub mod status;

pub use wkt_canonical::has_room;
