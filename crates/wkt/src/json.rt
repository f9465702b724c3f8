//! Geometries out of JSON: a string is read as its text is, and nothing else is a geometry.
ghost use Rattle.std.specs.Prelude.{◌≡◌, IfOk, IsNone, ◌↔◌, IsErrOf, IsTrue, []};
ghost use Rattle.std.specs.Result.{IsOk};
ghost use Rattle.wkt_types.specs.Tree.{tree};
ghost use Rattle.wkt_read.specs.Items.{bad_number};
ghost use Rattle.wkt_read.specs.Front.{Front, HasNoFront, NeedsNoMemory};
ghost use Rattle.wkt_read.specs.Answered.{IsFront, HasBadNumber, OnText, OnMessage};
ghost use Rattle.wkt_read.specs.Refusal.{IsTextRefused, IfText};
ghost use Rattle.wkt_types.specs.Outcome.{Answers, value};
ghost use Rattle.wkt_flat.specs.Tree.{Flat, flat_tree};
ghost use Rattle.wkt_flat.specs.Equal.{coord_eq};
ghost use Rattle.wkt_convert.specs.Flatten.{flat};
ghost use Rattle.wkt.specs.FromText.{TextAnswers, AnswersKind, text_of, AsText, point_or_none_kind};
ghost use Rattle.wkt_convert.specs.Kinds.{only};

use crate::from_text::TryFromWkt;
use serde_json::Value;
use std::alloc::Global;
use std::fmt::Display;
use thiserror::Error;
use wkt_convert::mismatch;
use wkt_flat::{Geometry, Point};
use wkt_num::WktNum;
use wkt_read::ReadError;
use wkt_types::{ConvertError, Wkt};
use wkt_values::read_text;

/// Why a JSON value gives no geometry.
#[derive(Debug, Drop, Error)]
#[error_bound(E: Display)]
pub enum ValueError<E> {
    /// The value is no string.
    #[error("a valid WKT format")]
    NotAString,
    /// The string is refused by its text.
    #[error("{0}")]
    Fault(E),
}

/// The geometry at the front of a JSON string; what follows it in the string doesn't change the value.
///
/// ```text
/// let value = Value::from_str(alloc, "\"POINT (42 3.14)\"")?;
/// let point = wkt_from_value::<Decimal<6>>(alloc, &value)?;
/// ```
///
/// # Errors
/// `NotAString` where the value is no string (a number, a float among them, is none). `Fault` with
/// the error of `from_str` for the text: `Text` only where no beginning of it is a geometry, `Memory`
/// when out of memory, which a text without a geometry can return too.
pub fn wkt_from_value<T: WktNum>(
    alloc: Global,
    value: &Value,
) -> Result<Wkt<T>, ValueError<ReadError>>
    ensures not_a_string { IsErrOf result ValueError.NotAString ↔ IsNone (text_of value.now) }
    ensures found { AsText (text_of value.now) result (λ text r. IfOk r (λ w. IsFront T.read text (tree w))) }
    ensures refused { AsText (text_of value.now) result (λ text r. OnText r (HasNoFront T.read text)) }
    ensures bad { AsText (text_of value.now) result (λ text r. OnMessage r bad_number (HasBadNumber T.read text)) }
    ensures refusal { AsText (text_of value.now) result (λ text r. IfText r (IsTextRefused T.read text)) }
    ensures free { AsText (text_of value.now) result
        (λ text r. (v end : _) → Front T.read text v end → NeedsNoMemory v → IsOk r) }
{
    match value.as_str() {
        Some(text) => match read_text::<T>(alloc, text) {
            Ok((geometry, _)) => Ok(geometry),
            Err(error) => Err(ValueError::Fault(error)),
        },
        None => Err(ValueError::NotAString),
    }
}

/// The value of the geometry at the front of a JSON string, as `try_from_wkt_str` gives it.
///
/// # Errors
/// `NotAString` where the value is no string. `Fault` with what `try_from_wkt_str` returns where it
/// refuses the text.
pub fn deserialize_wkt<T, G: TryFromWkt<T>>(
    alloc: Global,
    value: &Value,
) -> Result<G, ValueError<G::Error>>
    ensures { AsText (text_of value.now) result G.answers }
{
    match value.as_str() {
        Some(text) => match G::try_from_wkt_str(alloc, text) {
            Ok(geometry) => Ok(geometry),
            Err(error) => Err(ValueError::Fault(error)),
        },
        None => Err(ValueError::NotAString),
    }
}

/// The two-dimensional geometry at the front of a JSON string: its z and m are dropped, and an empty
/// point becomes an empty multipoint.
///
/// # Errors
/// `NotAString` where the value is no string. `Fault` with `InvalidWKT` where no beginning of the
/// text is a geometry, with `PointConversionError` for a multipoint with an empty member, with
/// `Memory` when out of memory.
pub fn deserialize_geometry<T: WktNum>(
    alloc: Global,
    value: &Value,
) -> Result<Geometry<T>, ValueError<ConvertError>>
    ensures { AsText (text_of value.now) result (TextAnswers T.read flat_tree (flat (coord_eq T.eq))) }
{
    deserialize_wkt(alloc, value)
}

/// The point, or none where the geometry is a multipoint without members.
fn point_or_none<T: WktNum>(geometry: Geometry<T>) -> Result<Option<Point<T>>, ConvertError>
    ensures { Answers (λ p. p) (only point_or_none_kind (value (flat_tree geometry))) result }
{
    match geometry {
        Geometry::Point(point) => Ok(Some(point)),
        other => {
            if is_empty_multi_point(&other) {
                Ok(None)
            } else {
                mismatch("Point", &other)
            }
        }
    }
}

/// Whether it is a multipoint without members.
fn is_empty_multi_point<T>(geometry: &Geometry<T>) -> bool
    ensures { IsTrue result ↔ (flat_tree geometry.now ≡ Flat.multi_point []) }
{
    match geometry {
        Geometry::MultiPoint(points) => points.0.is_empty(),
        _ => false,
    }
}

/// The point at the front of a JSON string: None for `POINT EMPTY` and for `MULTIPOINT EMPTY`.
///
/// # Errors
/// Those of `deserialize_geometry`; then `Fault` with `MismatchedGeometry`, expected `Point`, for a
/// geometry of any other kind and for a multipoint that has members.
pub fn deserialize_point<T: WktNum>(
    alloc: Global,
    value: &Value,
) -> Result<Option<Point<T>>, ValueError<ConvertError>>
    ensures { AsText (text_of value.now) result (AnswersKind T.read T.eq point_or_none_kind) }
{
    match deserialize_geometry(alloc, value) {
        Ok(geometry) => match point_or_none(geometry) {
            Ok(point) => Ok(point),
            Err(error) => Err(ValueError::Fault(error)),
        },
        Err(error) => Err(error),
    }
}
