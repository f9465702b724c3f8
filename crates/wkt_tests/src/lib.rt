//! Tests that take several crates, in modules named after what they test. A text and its answer is no test here, but a
//! row of `wkt_tables`.
//!
//! Below stand `wkt`, the crates that it is made of, `wkt_lines`, and what tests share. Tests of one crate that reads are
//! those of `wkt_read_tests`, and tests that need no reading those of `wkt_test_support`.
#![tactic(auto)]

#[cfg(test)]
mod asserts;
#[cfg(test)]
mod convert;
#[cfg(test)]
mod deep;
#[cfg(test)]
mod doc_examples;
#[cfg(test)]
mod flat;
#[cfg(test)]
mod io_errors;
#[cfg(test)]
mod lines;
#[cfg(test)]
mod read;
#[cfg(test)]
mod same_geometry;
#[cfg(test)]
mod short_texts;
