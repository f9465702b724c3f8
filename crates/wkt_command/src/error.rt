//! Why a run can't go on.
use std::alloc::AllocError;
use std::io::{self, ErrorKind};
use thiserror::Error;
use wkt_bytes::ReadAllError;

/// Why a run can't go on.
#[derive(Debug, Drop, Error)]
pub enum CommandError {
    /// A file can't be read; the run goes on with the next.
    #[error("{0}")]
    Input(io::Error),
    /// Standard output fails.
    #[error("standard output: {0}")]
    Output(io::Error),
    #[error("an argument isn't UTF-8")]
    Argument,
    #[error("out of memory")]
    Memory(#[from] AllocError),
}

impl CommandError {
    /// Reading failed; out of memory has its own variant.
    pub fn input(error: io::Error) -> CommandError {
        match error.kind() {
            ErrorKind::OutOfMemory => CommandError::Memory(AllocError),
            _ => CommandError::Input(error),
        }
    }

    /// Writing failed; out of memory has its own variant.
    pub fn output(error: io::Error) -> CommandError {
        match error.kind() {
            ErrorKind::OutOfMemory => CommandError::Memory(AllocError),
            _ => CommandError::Output(error),
        }
    }
}

impl From<ReadAllError> for CommandError {
    fn from(error: ReadAllError) -> CommandError {
        match error {
            ReadAllError::Read(error) => CommandError::input(error),
            ReadAllError::Memory(error) => CommandError::Memory(error),
        }
    }
}
