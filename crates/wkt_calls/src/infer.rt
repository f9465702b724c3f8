//! The kind and the dimension of a header, as numbers.
ghost use Rattle.std.specs.Prelude.{◌≡◌, MatchResult};
ghost use Rattle.wkt_calls.specs.Answer.{kind_number, dimension_number, IsHeaderOf, NamesNone};

use crate::status::NOT_TEXT;
use wkt_read::{HeaderError, infer_header};
use wkt_types::{Dimension, GeometryType};

/// The header begins with no kind word.
pub const NO_KIND: u32 = 1;
/// EMPTY comes first, with no space before it.
pub const NO_SPACE: u32 = 2;
/// There is neither a parenthesis nor EMPTY.
pub const NO_PAREN: u32 = 3;

/// The numbers of the kind and of the dimension that the header of a text names, or why it names none.
pub fn infer(text: &[u8]) -> Result<(u32, u32), u32>
    ensures { MatchResult result (λ r. IsHeaderOf text.now r.0 r.1) (NamesNone text.now) }
{
    let Ok(text) = str::from_utf8(text) else {
        return Err(NOT_TEXT);
    };
    match infer_header(text) {
        Ok((kind, dimension)) => Ok((number_of_kind(kind), number_of_dimension(dimension))),
        Err(HeaderError::UnsupportedPrefix(_)) => Err(NO_KIND),
        Err(HeaderError::NoSpaceBeforeEmpty) => Err(NO_SPACE),
        Err(HeaderError::NoOpenParen) => Err(NO_PAREN),
    }
}

/// The number of a kind.
pub fn number_of_kind(kind: GeometryType) -> u32
    ensures { result ≡ kind_number kind }
{
    match kind {
        GeometryType::Point => 0,
        GeometryType::LineString => 1,
        GeometryType::Polygon => 2,
        GeometryType::MultiPoint => 3,
        GeometryType::MultiLineString => 4,
        GeometryType::MultiPolygon => 5,
        GeometryType::GeometryCollection => 6,
    }
}

/// The number of a dimension.
pub fn number_of_dimension(dimension: Dimension) -> u32
    ensures { result ≡ dimension_number dimension }
{
    match dimension {
        Dimension::XY => 0,
        Dimension::XYZ => 1,
        Dimension::XYM => 2,
        Dimension::XYZM => 3,
    }
}
