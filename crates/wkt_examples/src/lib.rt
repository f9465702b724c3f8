//! Examples: callers of `wkt`, proved, each in its own file and written to be copied from: a key, a file, a refusal, a
//! number type, a builder and a representation.
//!
//! Below stands `wkt`; nothing stands above.
//!
//! `docs/CALLING.md` has the calls that they make, with the clause that each of them rests on.
#![tactic(auto)]

pub mod flat_from_reader;
pub mod key;
pub mod my_builder;
pub mod my_map;
pub mod my_number;
pub mod refusal;
#[cfg(test)]
mod tests;
#[cfg(test)]
mod write;
