//! Conversions of coordinates and points to flat ones, and why a conversion is refused.
ghost use Rattle.std.specs.Prelude.{◌≡◌};
ghost use Rattle.wkt_types.specs.Outcome.{Answers, xy, point_or_fault};

use crate::coord::Coord;
use crate::point::Point;
use std::alloc::AllocError;
use std::io;
use thiserror::Error;
use wkt_flat as flat;

/// Why a value of well-known text has no flat value of the type asked for.
#[derive(Debug, Drop, Error)]
pub enum ConvertError {
    /// A point without a coordinate, where a flat one has to have one.
    #[error("The WKT Point was empty, but geo_type::Points cannot be empty")]
    PointConversionError,
    /// A geometry of another kind than was asked for. Both are plain names of types, as `Point`.
    #[error("Mismatched geometry (expected {expected:?}, found {found:?})")]
    MismatchedGeometry {
        expected: &'static str,
        found: &'static str,
    },
    /// Never made. It is there because the Rust crate has it.
    #[error("Wrong number of Geometries: {0}")]
    WrongNumberOfGeometries(usize),
    /// The text doesn't begin with a geometry; what is held is the reader's message.
    #[error("Invalid WKT: {0}")]
    InvalidWKT(&'static str),
    /// The source of the bytes failed. No error is tried again, `Interrupted` neither.
    #[error("External error: read fault")]
    Reader(io::Error),
    /// The bytes aren't UTF-8.
    #[error("External error: not UTF-8")]
    Utf8,
    /// Memory ran out.
    #[error("out of memory")]
    Memory(AllocError),
}

impl From<AllocError> for ConvertError {
    ghost use Rattle.wkt_types.specs.declared.convert.ConvertError.TheVariants.{Memory};

    ghost from_gives = { λ fault result. result ≡ Memory fault };

    fn from(fault: AllocError) -> ConvertError {
        ConvertError::Memory(fault)
    }
}

/// x and y of the coordinate.
impl<T: Drop> From<Coord<T>> for flat::Coord<T> {
    ghost from_gives = { λ c r. r ≡ xy c };

    fn from(coord: Coord<T>) -> Self {
        flat::Coord {
            x: coord.x,
            y: coord.y,
        }
    }
}

/// The point at x and y of the coordinate. It takes no memory.
///
/// # Errors
/// `PointConversionError` for a point without a coordinate.
impl<T: Drop> TryFrom<Point<T>> for flat::Point<T> {
    type Error = ConvertError;

    ghost try_from_gives = { λ p r. Answers (λ q. q) (point_or_fault p.coord) r };

    fn try_from(point: Point<T>) -> Result<Self, ConvertError> {
        match point.into_inner() {
            (Some(coord), _) => Ok(flat::Point(flat::Coord::from(coord))),
            (None, _) => Err(ConvertError::PointConversionError),
        }
    }
}
