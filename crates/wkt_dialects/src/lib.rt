//! Texts as other tools write them: what is read beyond the grammar, where it is asked for by name.
//!
//! A text in a dialect is first read without: `rest_of` says where it begins behind its SRID. Only where no geometry stands
//! there, `write_as_read` writes another text, of the lexemes that `specs/Dialects` gives, which every reader reads as it
//! stands, and `place_in` maps its places back. So no text is read otherwise that is read without a dialect, and none takes
//! longer. Below stands `wkt_machine`; above, `wkt_calls` and the crates for other languages.
#![tactic(auto)]

pub mod dialects;
mod exponents;
mod first;
pub mod laws;
mod lexeme;
mod nan;
mod pieces;
mod places;
mod put;
mod reading;
mod slices;
mod spot;
mod srid;

pub use dialects::{Dialects, dialects_in};
pub use places::place_in;
pub use put::{Front, NoRoom, Put};
pub use reading::write_as_read;
pub use srid::{rest_of, split_srid};
