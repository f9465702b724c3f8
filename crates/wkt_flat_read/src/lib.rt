//! Two-dimensional values, made straight of the machine's events.
//!
//! Below stand `wkt_machine`, with the machine and its events, and `wkt_convert`, with what is flat; above, `wkt`.
#![tactic(auto)]

mod flat_builder;
mod text;
mod tree;

pub use text::read_text;
