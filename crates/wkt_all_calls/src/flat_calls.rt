//! That the calls over two-dimensional values agree, whichever of them is asked.
use crate::answers::shows;
use serde_json::Value;
use std::alloc::{AllocError, Global};
use wkt::deserialize::geo_types::deserialize_geometry;
use wkt::deserialize::{ValueError, wkt_from_value};
use wkt::error::Error;
use wkt::geo_types::Geometry;
use wkt::geo_types_from_wkt::{Error as ConvertError, try_into_geometry};
use wkt::to_wkt::{Counted, ToWktError};
use wkt::{FromWktStr, ReadError, ToWkt, TryFromWkt, Wkt, WktNum};

/// The flat value, or the words of the error in its place.
type FlatOutcome<T> = Result<Geometry<T>, String>;

/// Whether the flat value of a text's geometry, or the error in its place, is one by every call that
/// gives it, and whether its text is one by every call that writes it.
pub(crate) fn flat_alike<T: WktNum>(
    alloc: Global,
    text: &str,
    geometry: &Wkt<T>,
) -> Result<bool, AllocError> {
    let flat = outcome(alloc, try_into_geometry(alloc, geometry))?;
    all_alike(alloc, text, geometry, &flat)
}

/// Whether every call gives that flat value or error, and writes it alike.
fn all_alike<T: WktNum>(
    alloc: Global,
    text: &str,
    geometry: &Wkt<T>,
    flat: &FlatOutcome<T>,
) -> Result<bool, AllocError> {
    Ok(
        gives(alloc, Geometry::try_from_wkt_str(alloc, text), flat)?
            && by_bytes_alike(alloc, text, flat)?
            && json_alike(alloc, text, geometry, flat)?
            && outcome_alike(alloc, flat)?,
    )
}

/// Whether a call gave that flat value or error.
fn gives<T: WktNum>(
    alloc: Global,
    answer: Result<Geometry<T>, ConvertError>,
    flat: &FlatOutcome<T>,
) -> Result<bool, AllocError> {
    let given = outcome(alloc, answer)?;
    Ok(same(&given, flat))
}

/// What a call answered; out of memory comes first.
fn outcome<T: WktNum>(
    alloc: Global,
    answer: Result<Geometry<T>, ConvertError>,
) -> Result<FlatOutcome<T>, AllocError> {
    match answer {
        Ok(geometry) => Ok(Ok(geometry)),
        Err(ConvertError::Memory(e)) => Err(e),
        Err(error) => Ok(Err(format!(in alloc; "{error}")?)),
    }
}

/// Whether two calls answered alike.
fn same<T: WktNum>(one: &FlatOutcome<T>, other: &FlatOutcome<T>) -> bool {
    match (one, other) {
        (Ok(one), Ok(other)) => one == other,
        (Err(one), Err(other)) => one == other,
        _ => false,
    }
}

/// Whether the bytes of a text give that flat value or error.
fn by_bytes_alike<T: WktNum>(
    alloc: Global,
    text: &str,
    flat: &FlatOutcome<T>,
) -> Result<bool, AllocError> {
    let mut bytes = Counted::new(text.as_bytes());
    gives(
        alloc,
        Geometry::try_from_wkt_reader(alloc, &mut bytes),
        flat,
    )
}

/// Whether a text as a JSON string gives that geometry, and that flat value or error.
fn json_alike<T: WktNum>(
    alloc: Global,
    text: &str,
    geometry: &Wkt<T>,
    flat: &FlatOutcome<T>,
) -> Result<bool, AllocError> {
    let json = Value::String(String::from_str(alloc, text)?);
    value_alike(alloc, &json, geometry, flat)
}

/// Whether a JSON value gives that geometry, and that flat value or error.
fn value_alike<T: WktNum>(
    alloc: Global,
    json: &Value,
    geometry: &Wkt<T>,
    flat: &FlatOutcome<T>,
) -> Result<bool, AllocError> {
    Ok(flat_from_json(alloc, json, flat)? && is_from_json(alloc, json, geometry)?)
}

/// Whether a JSON value gives that flat value or error.
fn flat_from_json<T: WktNum>(
    alloc: Global,
    json: &Value,
    flat: &FlatOutcome<T>,
) -> Result<bool, AllocError> {
    match deserialize_geometry(alloc, json) {
        Ok(geometry) => gives(alloc, Ok(geometry), flat),
        Err(ValueError::Fault(error)) => gives(alloc, Err(error), flat),
        Err(ValueError::NotAString) => Ok(false),
    }
}

/// Whether a JSON value gives that geometry.
fn is_from_json<T: WktNum>(
    alloc: Global,
    json: &Value,
    geometry: &Wkt<T>,
) -> Result<bool, AllocError> {
    match wkt_from_value(alloc, json) {
        Ok(wkt) => Ok(wkt == *geometry),
        Err(ValueError::Fault(ReadError::Memory(e))) => Err(e),
        Err(_) => Ok(false),
    }
}

/// Whether a flat value, if there is one, is copied and written by each call alike.
fn outcome_alike<T: WktNum>(alloc: Global, outcome: &FlatOutcome<T>) -> Result<bool, AllocError> {
    match outcome {
        Ok(flat) => Ok(is_copied(alloc, flat)? && written_alike(alloc, flat)?),
        Err(_) => Ok(true),
    }
}

/// Whether a copy of a flat value equals it.
fn is_copied<T: WktNum>(alloc: Global, flat: &Geometry<T>) -> Result<bool, AllocError> {
    let copy = flat.try_clone(alloc)?;
    Ok(copy == *flat)
}

/// Whether the three calls that write a flat value give one text, which reads back as one text.
fn written_alike<T: WktNum>(alloc: Global, flat: &Geometry<T>) -> Result<bool, AllocError> {
    match flat.wkt_string(alloc) {
        Ok(string) => is_text(alloc, flat, &string),
        Err(Error::Memory(e)) => Err(e),
        Err(_) => Ok(false),
    }
}

/// Whether the other two give that text, and it reads back.
fn is_text<T: WktNum>(alloc: Global, flat: &Geometry<T>, string: &str) -> Result<bool, AllocError> {
    Ok(
        is_displayed(alloc, flat, string)?
            && goes_out(alloc, flat, string)?
            && reads_back::<T>(alloc, string)?,
    )
}

/// Whether that is what the `Wkt` of a flat value displays.
fn is_displayed<T: WktNum>(
    alloc: Global,
    flat: &Geometry<T>,
    string: &str,
) -> Result<bool, AllocError> {
    let wkt = flat.to_wkt(alloc)?;
    shows(alloc, &wkt, string)
}

/// Whether that is what goes out to a list of bytes.
fn goes_out<T: WktNum>(
    alloc: Global,
    flat: &Geometry<T>,
    string: &str,
) -> Result<bool, AllocError> {
    let mut out = Vec::new(alloc);
    match flat.write_wkt(alloc, &mut Counted::new(&mut out)) {
        Ok(()) => Ok(out.as_slice() == string.as_bytes()),
        // A list takes no bytes only when out of memory.
        Err(ToWktError::Io(_)) => Err(AllocError),
        Err(ToWktError::Shape(_)) => Ok(false),
    }
}

/// Whether a text is read as what has that text.
fn reads_back<T: WktNum>(alloc: Global, string: &str) -> Result<bool, AllocError> {
    match Wkt::<T>::from_str(alloc, string) {
        Ok(again) => shows(alloc, &again, string),
        Err(ReadError::Memory(e)) => Err(e),
        Err(ReadError::Text(_)) => Ok(false),
    }
}
