//! Where and why a text is refused.
//!
//! Below stands `wkt_machine`; above, `wkt`, `wkt_command` and `wkt_calls`.
#![tactic(auto)]

mod api;
mod explanation;
mod hint;
pub mod laws;
mod walked;
mod whole;

pub use api::{explain, explain_by, message, refusal};
pub use explanation::{Explanation, Refusal};
pub use hint::Hint;
pub use whole::{Problem, check, check_padded};
pub use wkt_read::Expected;
