//! Calls over JSON values, by their names.
use crate::calls::{Number, flat_or_words};
use crate::table::value_of;
use serde_json::Value;
use std::alloc::Global;
use wkt::deserialize::geo_types::{deserialize_geometry, deserialize_point};
use wkt::deserialize::{ValueError, deserialize_wkt, wkt_from_value};
use wkt::geo_types::Point;
use wkt::geo_types_from_wkt::Error;
use wkt::{AnyError, ToWkt};

/// What the call of that name gives of the value of a JSON text.
pub(crate) fn json_given(
    alloc: Global,
    call: &str,
    of: &str,
    json: &str,
) -> Result<String, AnyError> {
    match value_of(alloc, json)? {
        Some(value) => of_value(alloc, call, of, &value),
        None => Ok(String::from_str(alloc, "no JSON")?),
    }
}

fn of_value(alloc: Global, call: &str, of: &str, value: &Value) -> Result<String, AnyError> {
    match (call, of) {
        ("wkt_from_value", _) => wkt_text(alloc, value),
        ("deserialize_geometry", _) => {
            flat_or_words(alloc, deserialize_geometry::<Number>(alloc, value))
        }
        ("deserialize_wkt", "Point") => point_text(alloc, value),
        ("deserialize_point", _) => text_if_any(alloc, value),
        _ => Ok(String::from_str(alloc, "no such call")?),
    }
}

fn wkt_text(alloc: Global, value: &Value) -> Result<String, AnyError> {
    match wkt_from_value::<Number>(alloc, value) {
        Ok(geometry) => Ok(geometry.to_string(alloc)?),
        Err(error) => Ok(error.to_string(alloc)?),
    }
}

fn point_text(alloc: Global, value: &Value) -> Result<String, AnyError> {
    let read: Result<Point<Number>, ValueError<Error>> = deserialize_wkt(alloc, value);
    match read {
        Ok(point) => Ok(point.wkt_string(alloc)?),
        Err(error) => Ok(error.to_string(alloc)?),
    }
}

/// The text of the point, or `none`.
fn text_if_any(alloc: Global, value: &Value) -> Result<String, AnyError> {
    match deserialize_point::<Number>(alloc, value) {
        Ok(Some(point)) => Ok(point.wkt_string(alloc)?),
        Ok(None) => Ok(String::from_str(alloc, "none")?),
        Err(error) => Ok(error.to_string(alloc)?),
    }
}
