//! Sinks and sources of bytes, and text to a sink of bytes.
//!
//! Below stands `wkt_num`; above, what takes or gives bytes: `wkt_convert`, `wkt_lines` and the programs.
#![tactic(auto)]

mod gathered;
pub mod laws;
mod read;
mod sinks;
mod wrapper;

pub use gathered::GatheredText;
pub use read::{ReadAllError, read_all};
pub use sinks::{ByteSink, ByteSource, Counted};
pub use wrapper::{WriterWrapper, copy_piece, error_of, put_all};
