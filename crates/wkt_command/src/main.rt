//! `wkt`: well-known text, for people. Where texts are refused and what was expected there, their canonical texts, their
//! kinds, and which of them name one geometry.
//!
//! Below stand `wkt_options`, `wkt_lines`, `wkt_explain`, `wkt_dialects` and `wkt_canonical`.
#![tactic(auto)]

mod csv;
mod dialects;
mod dups;
mod error;
mod input;
mod key;
mod output;
mod part;
mod place;
mod progress;
mod report;
mod row;
mod run;
mod same;
mod session;
mod shown;
mod verdict;
mod words;

use std::process::ExitCode;

fn main(rt: HostRuntime) -> ExitCode {
    ExitCode::from(session::status(&rt))
}
