//! Why a geometry isn't written.
#![tactic(auto)]

use std::alloc::AllocError;
use std::fmt;

/// Why a geometry isn't written.
///
/// The first three say what is wrong with the geometry: it is refused before anything is written,
/// for the first such reason in the order of its text.
#[derive(Debug, Drop, thiserror::Error)]
pub enum Error {
    /// A rectangle whose dimension isn't `Xy` or `Unknown(2)`.
    #[error("Only 2D input is supported when writing Rect to WKT.")]
    RectUnsupportedDimension,
    /// A header whose dimension is `Unknown(n)` for another n than 2, 3 and 4.
    #[error("Only defined dimensions and undefined dimensions of 2, 3, or 4 are supported.")]
    UnknownDimension,
    /// The sink failed. A beginning of the text was written.
    #[error(transparent)]
    FmtError(fmt::Error),
    /// A coordinate has fewer numbers than the header above it asks for.
    #[error("A coordinate has fewer numbers than its dimension.")]
    TooFewNumbers,
    /// There was no memory. No writer of this crate takes any; it is for callers that do.
    #[error("out of memory")]
    Memory(AllocError),
}

impl From<fmt::Error> for Error {
    ghost use Rattle.std.specs.Prelude.{◌≡◌};
    ghost use Rattle.wkt_access.specs.declared.error.Error.TheVariants.{FmtError};

    ghost from_gives = { λ fault result. result ≡ FmtError fault };

    fn from(fault: fmt::Error) -> Error {
        Error::FmtError(fault)
    }
}

impl From<AllocError> for Error {
    ghost use Rattle.std.specs.Prelude.{◌≡◌};
    ghost use Rattle.wkt_access.specs.declared.error.Error.TheVariants.{Memory};

    ghost from_gives = { λ fault result. result ≡ Memory fault };

    fn from(fault: AllocError) -> Error {
        Error::Memory(fault)
    }
}

/// What a `Display` implementation returns: the sink's own error, or else the one error that a formatter has.
impl From<Error> for fmt::Error {
    ghost use Rattle.std.specs.Prelude.{◌≡◌};
    ghost use Rattle.wkt_access.specs.Faults.{fmt_error_of};

    ghost from_gives = { λ error result. result ≡ fmt_error_of error };

    fn from(error: Error) -> fmt::Error {
        match error {
            Error::FmtError(fault) => fault,
            _ => fmt::Error,
        }
    }
}
