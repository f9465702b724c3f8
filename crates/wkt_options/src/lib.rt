//! What a run of the command `wkt` is asked to do.
//!
//! Below stands `wkt_dialects`; above, `wkt_command`.
#![tactic(auto)]

mod arguments;
mod options;
mod usage;

pub use arguments::{Request, parse};
pub use options::{Command, Ends, Form, Options, Part};
pub use usage::{HELP, USAGE, UsageError, VERSION};
