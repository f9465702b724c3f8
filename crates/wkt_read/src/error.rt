//! Why a text is not read.
ghost use Rattle.std.specs.Prelude.{◌≡◌};

use std::alloc::{AllocError, AllocFailed};

/// Why a text is not read.
#[derive(Debug, Drop, thiserror::Error)]
pub enum ReadError {
    /// The text has no geometry at its front; the message says what was found amiss.
    #[error("{0}")]
    Text(&'static str),
    /// Memory ran out.
    #[error("out of memory")]
    Memory(AllocError),
}

/// So that `?` passes on what allocates, beside what reads.
impl From<AllocError> for ReadError {
    ghost use Rattle.wkt_read.specs.declared.error.ReadError.TheVariants.{Memory};

    ghost from_gives = { λ error result. result ≡ Memory error };

    fn from(error: AllocError) -> Self {
        ReadError::Memory(error)
    }
}

/// The error of a list that couldn't grow: the value it was to take is dropped.
impl<V: Drop> From<AllocFailed<V>> for ReadError {
    ghost use Rattle.wkt_read.specs.declared.error.ReadError.TheVariants.{Memory};

    ghost from_gives = { λ _ result. (error : _) × (result ≡ Memory error) };

    fn from(failed: AllocFailed<V>) -> Self {
        ReadError::Memory(AllocError::from(failed))
    }
}
