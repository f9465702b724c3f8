//! The tables of texts, which this program checks.
//!
//! Below stand `wkt`, the crates that read, `wkt_lines`, `wkt_all_calls`, which asks all calls for a text, and
//! `wkt_test_support`, which has odd number types.
//!
//! Each line of standard input is a text, a tab, and what reading the text over decimals of eighteen
//! places gives: the text of its geometry, or the message. The table that stands beside the sources
//! has one text for each kind, dimension, place and cause that can be met there; it was made by a
//! program written from the rules alone, in another language.
//!
//! Each argument names a file of rows, one a call with what it gives: those of `data/`, each with a head that says
//! what its columns are. `wkt_tables count decimal|i64 OPERATION.. < LINES` does operations to lines instead.
#![tactic(auto)]

mod calls;
mod dialects;
mod flat_calls;
mod json_calls;
mod made;
mod numbers;
mod operations;
mod parts;
mod table;

use std::process::ExitCode;
use table::check_all;

fn main(rt: HostRuntime) -> ExitCode {
    match check_all(&rt) {
        Ok(0) => ExitCode::SUCCESS,
        Ok(_) => ExitCode::from(1),
        Err(e) => {
            // If standard error fails too, the status still reports it.
            let _ = eprintln!(rt; "wkt_tables: {e}");
            ExitCode::from(2)
        }
    }
}
