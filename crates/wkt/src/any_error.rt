//! One error for functions that read, convert and write.
ghost use Rattle.std.specs.Prelude.{◌≡◌};

use crate::whole::WholeError;
use std::alloc::{AllocError, AllocFailed};
use thiserror::Error;
use wkt_convert::ToWktError;
use wkt_read::{InferError, ReadError};
use wkt_types::ConvertError;

/// What a function returns that reads, converts and writes: `?` passes on the error of each of these.
///
/// ```text
/// pub fn flat_text(alloc: Global, text: &str) -> Result<String, AnyError> {
///     let wkt = Wkt::<i32>::from_str(alloc, text)?;
///     let flat = try_into_geometry(alloc, &wkt)?;
///     Ok(flat.wkt_string(alloc)?)
/// }
/// ```
#[derive(Debug, Drop, Error)]
pub enum AnyError {
    /// A text isn't read (`from_str`, `read_front`, `read_tokens`).
    #[error("{0}")]
    Read(#[from] ReadError),
    /// A text isn't one geometry as a whole (`read_whole`).
    #[error("{0}")]
    Whole(#[from] WholeError),
    /// The header of a text names no kind (`infer_type`).
    #[error("{0}")]
    Infer(#[from] InferError),
    /// A geometry has no flat value, or a text isn't read as one (`try_into_geometry`, `try_from_wkt_str`).
    #[error("{0}")]
    Convert(#[from] ConvertError),
    /// A geometry isn't written, or the sink of text failed (`write_geometry`, `push_geometry`, `wkt_string`).
    #[error("{0}")]
    Write(#[from] wkt_access::Error),
    /// A geometry isn't written, or the sink of bytes failed (`write_wkt`).
    #[error("{0}")]
    Send(#[from] ToWktError),
    /// Out of memory (`try_clone`, `push`, and what else asks for memory alone).
    #[error("out of memory")]
    Memory(#[from] AllocError),
}

/// The error of a list that couldn't grow: the value it was to take is dropped.
impl<V: Drop> From<AllocFailed<V>> for AnyError {
    ghost use Rattle.wkt.specs.declared.any_error.AnyError.TheVariants.{Memory};

    ghost from_gives = { λ _ result. (error : _) × (result ≡ Memory error) };

    fn from(failed: AllocFailed<V>) -> Self {
        AnyError::Memory(AllocError::from(failed))
    }
}
