//! Where the machine's lexemes come from: bytes at their places, and tokens.
//!
//! Below stands `wkt_machine`; above, `wkt_values`, `wkt_canonical` and the other crates with builders.
#![tactic(auto)]

pub mod bytes;
mod coordinates;
pub mod front;
mod header;
mod message;
mod points;
pub mod tokens;

pub use bytes::ByteCursor;
pub use front::front_end;
pub use message::message_at;
pub use points::{FastPoint, fast_point};
pub use tokens::TokenSource;
