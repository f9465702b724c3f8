//! Lexemes in bytes: where they end, and what is read of numbers there.
//!
//! Below stands `wkt_read`, with the grammar; above, `wkt_machine`, which goes over these bytes.
#![tactic(auto)]

mod bytes;
mod reading;

pub use bytes::{byte_at, is_of_run, run_end, skip_white};
pub use reading::{begins_number, number_there};
