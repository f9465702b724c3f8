//! Tests of the crates that read, in modules named after what they test. A text and its answer is no test here, but a row
//! of `wkt_tables`. They stand in a crate of their own, since a crate with tests is proved twice: once as a library, and
//! once with its tests.
//!
//! Below stand the crates that read a text; no crate uses this one.
#![tactic(auto)]

#[cfg(test)]
mod arrays;
#[cfg(test)]
mod dialects;
#[cfg(test)]
mod events;
#[cfg(test)]
mod flat;
#[cfg(test)]
mod lines;
#[cfg(test)]
mod values;
