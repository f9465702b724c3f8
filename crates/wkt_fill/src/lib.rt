//! Text to flat arrays or to a list of events, and flat arrays to the events of their text, with no value between.
//!
//! Below stands `wkt_machine`, whose `drive` calls this builder; above, `wkt_calls`.
#![tactic(auto)]

mod array_builder;
mod event_writer;
mod fill;
mod front_events;
mod given;
mod status;
mod telling;
mod units;

pub use array_builder::{ArrayBuilder, Room};
pub use event_writer::EventRoom;
pub use fill::{Filled, fill_arrays};
pub use front_events::{EventCounts, write_events};
pub use given::{Given, are_arrays};
pub use telling::tell;
pub use units::WktUnits;
