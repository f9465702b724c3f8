//! Values of type `Wkt`, made from the machine's events.
//!
//! Below stand `wkt_machine` and `wkt_sources`; above, `wkt`.
#![tactic(auto)]

pub mod adding;
mod from_str;
pub mod laws;
mod refused;
pub mod text;
mod tree;
pub mod value;

pub use from_str::FromWktStr;
pub use text::read_text;
pub use tree::Ended;
pub use value::{Unread, read};
