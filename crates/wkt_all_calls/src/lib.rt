//! What all calls return for a text, for tests.
//!
//! Below stand `wkt` and the crates that it is made of; above, `wkt_tests` and `wkt_tables`.
#![tactic(auto)]

mod answers;
mod flat_calls;

pub use answers::{AnswerError, answer, text_or_message};
