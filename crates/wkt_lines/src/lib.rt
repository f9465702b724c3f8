//! Inputs that are answered line by line: each line with the text of the geometry that it begins with, or with
//! `refused`.
//!
//! Below stand `wkt_canonical`, which writes what a line begins with, and `wkt_bytes`; above, the programs and `wkt_calls`.
//!
//! The program `wktline` is the call [`run`] over standard input and output, and `wktstream` is [`stream`], which takes
//! an input of any size in the memory of the longest line:
//!
//! ```text
//! let mut reader = Counted::new(rt.stdin());
//! let mut writer = Counted::new(rt.stdout());
//! stream(rt.alloc(), &mut reader, &mut writer)?;
//! ```
#![tactic(auto)]

mod buffered;
mod ends;
mod in_room;
mod input_buffer;
pub mod laws;
mod lines;
mod output_buffer;
mod reading;
mod streaming;
mod whole;

pub use ends::line_end;
pub use in_room::{Answer, answer_line};
pub use lines::{RunError, after_line, run, run_over};
pub use reading::Lines;
pub use streaming::{stream, stream_over};
pub use whole::{WholeLines, write_whole_lines};
