//! The machine that reads a geometry, one lexeme at a time.
//!
//! Below stands `wkt_read`, with the grammar; above, `wkt_sources`, with what gives it lexemes.
#![tactic(auto)]

pub mod builder;
pub mod drive;
pub mod expected;
pub mod laws;
pub mod lexeme;
pub mod machine;
pub mod null_builder;
mod numbers;
mod part;
pub mod source;
pub mod step;

pub use builder::Builder;
pub use lexeme::{on, refused, take, take_rare};
pub use machine::{LexemeKind, Machine, State};
pub use null_builder::NullBuilder;
pub use numbers::{pad, read_at, read_by};
pub use part::{Axis, Part};
pub use source::{FastSource, Progress, Source, StepResult};
