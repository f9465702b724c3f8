//! Geometries of well-known text converted into two-dimensional types and back, and these types as text.
//!
//! Below stand `wkt_types` and `wkt_flat`, and `wkt_bytes` for text that goes to a sink; above, `wkt`.
#![tactic(auto)]

mod back;
mod convert;
mod flat_values;
mod flatten;
mod flattened;
mod kinds;
pub mod laws;
mod parts;
mod send;
mod string_text;
mod to_text;

pub use convert::{ConvertFrom, try_into_geometry, try_into_geometry_collection};
pub use flattened::{Flattened, Found};
pub use kinds::{FromAny, mismatch};
pub use send::ToWktError;
pub use to_text::ToWkt;
