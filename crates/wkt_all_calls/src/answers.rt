//! The answer to a text, where all calls that read, copy and write a geometry agree on it, and those that build none
//! answer as those that do.
ghost use Rattle.std.specs.Prelude.{◌≡◌, IfOk, IsErr};
ghost use Rattle.std.specs.String.{string_bytes};
ghost use Rattle.wkt_read.specs.Front.{HasNoFront};
ghost use Rattle.wkt.specs.CanonicalText.{IsCanonical};
ghost use Rattle.wkt_all_calls.specs.Answer.{OnAnswerMemory, OnAnswerRefused};

use crate::flat_calls::flat_alike;
use std::alloc::{AllocError, Global};
use std::fmt::Display;
use thiserror::Error;
use wkt::laws::read_values_are_writable;
use wkt::tokenizer::{PeekableTokens, Tokens};
use wkt::types::{
    GeometryCollection, LineString, MultiLineString, MultiPoint, MultiPolygon, Polygon,
};
use wkt::{
    FromWktStr, InferError, ReadError, Wkt, WktNum, canonical_into, canonical_text, front_end,
    infer_type,
};

/// Why a text has no answer.
#[derive(Debug, Drop, Error)]
pub enum AnswerError {
    /// The text has no geometry at its front, for this reason.
    #[error("{0}")]
    Refused(&'static str),
    /// Two calls that must agree returned different results.
    #[error("two calls differ")]
    Differ,
    /// Out of memory.
    #[error("out of memory")]
    Memory(AllocError),
}

/// Returns the canonical text of the geometry at the front of a text, if all calls that read, copy, rebuild,
/// convert or write that geometry agree.
///
/// # Errors
/// `Refused` where the text has no geometry at its front; `Differ` where two calls disagree; `Memory` where memory
/// runs out.
pub fn answer<T: WktNum>(alloc: Global, text: &str) -> Result<String, AnswerError>
    ensures text { IfOk result (λ s. IsCanonical T.read T.num text.now (string_bytes s)) }
    ensures no_front { OnAnswerRefused result (HasNoFront T.read text.now) }
{
    let geometry = match Wkt::<T>::from_str(alloc, text) {
        Ok(geometry) => geometry,
        Err(ReadError::Text(message)) => return Err(refused::<T>(alloc, text, message)),
        Err(ReadError::Memory(e)) => return Err(AnswerError::Memory(e)),
    };
    // No effect at run time. The proof reads that what was read can be written.
    read_values_are_writable::<T>();
    let answer = match geometry.to_string(alloc) {
        Ok(answer) => answer,
        Err(e) => return Err(AnswerError::Memory(e)),
    };
    match all_alike(alloc, text, &geometry, &answer) {
        Ok(true) => Ok(answer),
        Ok(false) => Err(AnswerError::Differ),
        Err(e) => Err(AnswerError::Memory(e)),
    }
}

/// Returns the refusal with that message, if the calls that build no geometry refuse the text too, and if there is memory
/// to infer its kind.
fn refused<T: WktNum>(alloc: Global, text: &str, message: &'static str) -> AnswerError {
    match is_refused_alike::<T>(alloc, text, message) {
        Ok(true) => {}
        Ok(false) => return AnswerError::Differ,
        Err(e) => return AnswerError::Memory(e),
    }
    match infer_type(alloc, text) {
        Err(InferError::Memory(e)) => AnswerError::Memory(e),
        _ => AnswerError::Refused(message),
    }
}

/// Returns the text of an answer, or the message of its error, as the tables of texts have it.
///
/// # Errors
/// Out of memory, here or in the answer.
pub fn text_or_message(
    alloc: Global,
    answer: Result<String, AnswerError>,
) -> Result<String, AllocError>
    ensures text { IfOk result (λ row. IfOk answer (λ text. row ≡ text)) }
    ensures memory { OnAnswerMemory answer (IsErr result) }
{
    match answer {
        Ok(text) => Ok(text),
        Err(AnswerError::Memory(e)) => Err(e),
        Err(error) => format!(in alloc; "{error}"),
    }
}

/// Whether every call over that geometry of a text agrees, and those that display it return that answer.
fn all_alike<T: WktNum>(
    alloc: Global,
    text: &str,
    geometry: &Wkt<T>,
    answer: &str,
) -> Result<bool, AllocError> {
    Ok(
        again_alike(alloc, geometry, answer)?
            && read_alike(alloc, text, geometry)?
            && is_canonical_alike::<T>(alloc, text, answer)?
            && flat_alike(alloc, text, geometry)?,
    )
}

/// Whether a copy that is rebuilt from its parts equals that geometry, and displays as that answer.
fn again_alike<T: WktNum>(
    alloc: Global,
    geometry: &Wkt<T>,
    answer: &str,
) -> Result<bool, AllocError> {
    let again = rebuilt(alloc, geometry.try_clone(alloc)?)?;
    is_again(alloc, &again, geometry, answer)
}

fn is_again<T: WktNum>(
    alloc: Global,
    again: &Wkt<T>,
    geometry: &Wkt<T>,
    answer: &str,
) -> Result<bool, AllocError> {
    Ok(*again == *geometry && shows(alloc, again, answer)?)
}

/// Whether the two calls that return where the front ends read that geometry, and agree on that end.
fn read_alike<T: WktNum>(alloc: Global, text: &str, geometry: &Wkt<T>) -> Result<bool, AllocError> {
    match end_by_text(alloc, text, geometry)? {
        None => Ok(false),
        end => Ok(end_by_stream(alloc, text, geometry)? == end && front_end::<T>(text) == end),
    }
}

/// Where the front ends, if it is read as that geometry.
fn end_by_text<T: WktNum>(
    alloc: Global,
    text: &str,
    geometry: &Wkt<T>,
) -> Result<Option<usize>, AllocError> {
    match Wkt::<T>::read_front(alloc, text) {
        Ok((front, end)) => Ok((front == *geometry).then_some(end)),
        Err(ReadError::Text(_)) => Ok(None),
        Err(ReadError::Memory(e)) => Err(e),
    }
}

/// Where the front ends of which the lexemes are read as that geometry.
fn end_by_stream<T: WktNum>(
    alloc: Global,
    text: &str,
    geometry: &Wkt<T>,
) -> Result<Option<usize>, AllocError> {
    let mut tokens = PeekableTokens::new(Tokens::<T>::from_str(text));
    match Wkt::<T>::read_tokens(alloc, &mut tokens) {
        Ok(streamed) => Ok((streamed == *geometry).then_some(tokens.end())),
        Err(ReadError::Text(_)) => Ok(None),
        Err(ReadError::Memory(e)) => Err(e),
    }
}

/// An equal geometry, put together again from its parts.
fn rebuilt<T: WktNum>(alloc: Global, geometry: Wkt<T>) -> Result<Wkt<T>, AllocError> {
    match geometry {
        Wkt::Point(point) => Ok(Wkt::from(point)),
        Wkt::LineString(line) => line_string_again(alloc, line),
        Wkt::Polygon(polygon) => polygon_again(alloc, polygon),
        Wkt::MultiPoint(points) => points_again(alloc, points),
        Wkt::MultiLineString(lines) => line_strings_again(alloc, lines),
        Wkt::MultiPolygon(polygons) => polygons_again(alloc, polygons),
        Wkt::GeometryCollection(all) => collection_again(alloc, all),
    }
}

fn line_string_again<T: WktNum>(alloc: Global, line: LineString<T>) -> Result<Wkt<T>, AllocError> {
    let (coords, dim) = line.into_inner();
    let line = LineString::from_coords(alloc, coords.into_iter())?;
    Ok(Wkt::from(line.unwrap_or(LineString::empty(alloc, dim))))
}

fn polygon_again<T: WktNum>(alloc: Global, polygon: Polygon<T>) -> Result<Wkt<T>, AllocError> {
    let (rings, dim) = polygon.into_inner();
    let polygon = Polygon::from_rings(alloc, rings.into_iter())?;
    Ok(Wkt::from(polygon.unwrap_or(Polygon::empty(alloc, dim))))
}

fn points_again<T: WktNum>(alloc: Global, points: MultiPoint<T>) -> Result<Wkt<T>, AllocError> {
    let (points, dim) = points.into_inner();
    let points = MultiPoint::from_points(alloc, points.into_iter())?;
    Ok(Wkt::from(points.unwrap_or(MultiPoint::empty(alloc, dim))))
}

fn line_strings_again<T: WktNum>(
    alloc: Global,
    lines: MultiLineString<T>,
) -> Result<Wkt<T>, AllocError> {
    let (lines, dim) = lines.into_inner();
    let lines = MultiLineString::from_line_strings(alloc, lines.into_iter())?;
    Ok(Wkt::from(lines.unwrap_or(MultiLineString::empty(alloc, dim))))
}

fn polygons_again<T: WktNum>(
    alloc: Global,
    polygons: MultiPolygon<T>,
) -> Result<Wkt<T>, AllocError> {
    let (polygons, dim) = polygons.into_inner();
    let polygons = MultiPolygon::from_polygons(alloc, polygons.into_iter())?;
    Ok(Wkt::from(polygons.unwrap_or(MultiPolygon::empty(alloc, dim))))
}

/// The dimension of a collection need not be that of its first member.
fn collection_again<T: WktNum>(
    alloc: Global,
    all: GeometryCollection<T>,
) -> Result<Wkt<T>, AllocError> {
    let (members, dim) = all.into_inner();
    let all = GeometryCollection::from_geometries(alloc, members.into_iter())?;
    let all = all.unwrap_or(GeometryCollection::empty(alloc, dim));
    let (members, _) = all.into_inner();
    Ok(Wkt::from(GeometryCollection::new(members, dim)))
}

/// Room for texts of which no number is more than sixty times as long as what it is read from.
const ROOM_A_BYTE: usize = 64;

/// Whether the canonical text of what the text begins with is that answer, as a string and in a buffer.
pub(crate) fn is_canonical_alike<T: WktNum>(
    alloc: Global,
    text: &str,
    answer: &str,
) -> Result<bool, AllocError> {
    match canonical_text::<T>(alloc, text) {
        Ok(canonical) => {
            Ok(canonical.as_str() == answer && is_written_alike::<T>(alloc, text, answer)?)
        }
        Err(ReadError::Text(_)) => Ok(false),
        Err(ReadError::Memory(e)) => Err(e),
    }
}

/// Whether it is that in a buffer, up to where the geometry ends.
fn is_written_alike<T: WktNum>(
    alloc: Global,
    text: &str,
    answer: &str,
) -> Result<bool, AllocError> {
    let mut buffer = Vec::new(alloc);
    let Some(room) = text.len().checked_mul(ROOM_A_BYTE) else {
        return Err(AllocError);
    };
    buffer.resize(room.saturating_add(65), 0)?;
    match canonical_into::<T>(text, buffer.as_mut_slice()) {
        Ok(Some(written)) => Ok(
            front_end::<T>(text) == Some(written.end)
                && buffer.get(..written.len) == Some(answer.as_bytes()),
        ),
        _ => Ok(false),
    }
}

/// Whether the text is refused with that message.
pub(crate) fn is_refused_alike<T: WktNum>(
    alloc: Global,
    text: &str,
    message: &str,
) -> Result<bool, AllocError> {
    match canonical_text::<T>(alloc, text) {
        Ok(_) => Ok(false),
        Err(ReadError::Text(said)) => Ok(said == message && front_end::<T>(text).is_none()),
        Err(ReadError::Memory(e)) => Err(e),
    }
}

/// Whether that is what a value displays.
pub(crate) fn shows<G: Display>(alloc: Global, value: &G, want: &str) -> Result<bool, AllocError> {
    let text = format!(in alloc; "{value}")?;
    Ok(text.as_str() == want)
}
