//! Canonical text, with no value between: what the machine tells is written as it comes.
//!
//! Below stands `wkt_machine`; above, `wkt_lines` and `wkt`.
#![tactic(auto)]

mod canonical;
pub mod laws;
mod numbers;
mod room;
mod space;
mod text_builder;

pub use canonical::{
    NoRoom, TextWritten, canonical_in_room, canonical_into, canonical_or_message_outlined,
    write_canonical, write_front,
};
pub use room::{SPARE, has_room, lengthen, make_room, room_for, widen, write_growing};
pub use text_builder::TextBuilder;
