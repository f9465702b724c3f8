//! Calls over the two-dimensional types, by their names.
use crate::calls::{Number, agreed, flat_shown};
use std::alloc::Global;
use wkt::geo_types::{
    Geometry, GeometryCollection, Line, LineString, MultiLineString, MultiPoint, MultiPolygon,
    Point, Polygon, Rect, Triangle,
};
use wkt::geo_types_from_wkt::{
    ConvertFrom, Error, try_into_geometry, try_into_geometry_collection,
};
use wkt::{AnyError, FromWktStr, ToWkt, TryFromWkt, Wkt, types};

/// The text of what a text is read as, where that type is asked for.
pub(crate) fn flat_of(alloc: Global, name: &str, text: &str) -> Result<String, AnyError> {
    match name {
        "Point" => flat::<Point<Number>>(alloc, text),
        "Line" => flat::<Line<Number>>(alloc, text),
        "LineString" => flat::<LineString<Number>>(alloc, text),
        "Polygon" => flat::<Polygon<Number>>(alloc, text),
        "MultiPoint" => flat::<MultiPoint<Number>>(alloc, text),
        "MultiLineString" => flat::<MultiLineString<Number>>(alloc, text),
        "MultiPolygon" => flat::<MultiPolygon<Number>>(alloc, text),
        "GeometryCollection" => flat::<GeometryCollection<Number>>(alloc, text),
        "Rect" => flat::<Rect<Number>>(alloc, text),
        "Triangle" => flat::<Triangle<Number>>(alloc, text),
        "Geometry" => flat::<Geometry<Number>>(alloc, text),
        _ => Ok(String::from_str(alloc, "no such type")?),
    }
}

fn flat<G>(alloc: Global, text: &str) -> Result<String, AnyError>
where
    G: TryFromWkt<Number, Error = Error> + ToWkt<Number> + Drop,
{
    flat_shown(alloc, G::try_from_wkt_str(alloc, text))
}

/// The text of the flat value of the text's geometry, if its own type gives one by reference and by value.
pub(crate) fn converted(alloc: Global, text: &str) -> Result<String, AnyError> {
    match Wkt::<Number>::from_str(alloc, text)? {
        Wkt::LineString(x) => line_string(alloc, x),
        Wkt::Polygon(x) => polygon(alloc, x),
        Wkt::MultiPoint(x) => multi_point(alloc, x),
        Wkt::MultiLineString(x) => multi_line_string(alloc, x),
        Wkt::MultiPolygon(x) => multi_polygon(alloc, x),
        Wkt::GeometryCollection(x) => collection(alloc, x),
        point => any(alloc, point),
    }
}

fn any(alloc: Global, x: Wkt<Number>) -> Result<String, AnyError> {
    let one = try_into_geometry(alloc, &x);
    both(alloc, one, Geometry::convert_from(alloc, x))
}

fn line_string(alloc: Global, x: types::LineString<Number>) -> Result<String, AnyError> {
    let one = Geometry::convert_from(alloc, &x);
    both(alloc, one, LineString::convert_from(alloc, x))
}

fn polygon(alloc: Global, x: types::Polygon<Number>) -> Result<String, AnyError> {
    let one = Geometry::convert_from(alloc, &x);
    both(alloc, one, Polygon::convert_from(alloc, x))
}

fn multi_point(alloc: Global, x: types::MultiPoint<Number>) -> Result<String, AnyError> {
    let one = Geometry::convert_from(alloc, &x);
    both(alloc, one, MultiPoint::convert_from(alloc, x))
}

fn multi_line_string(alloc: Global, x: types::MultiLineString<Number>) -> Result<String, AnyError> {
    let one = Geometry::convert_from(alloc, &x);
    both(alloc, one, MultiLineString::convert_from(alloc, x))
}

fn multi_polygon(alloc: Global, x: types::MultiPolygon<Number>) -> Result<String, AnyError> {
    let one = Geometry::convert_from(alloc, &x);
    both(alloc, one, MultiPolygon::convert_from(alloc, x))
}

fn collection(alloc: Global, x: types::GeometryCollection<Number>) -> Result<String, AnyError> {
    let one = try_into_geometry_collection(alloc, &x);
    both(alloc, one, GeometryCollection::convert_from(alloc, x))
}

/// The text of the flat value, or the error, that two calls gave.
fn both<G: ToWkt<Number> + Drop>(
    alloc: Global,
    one: Result<Geometry<Number>, Error>,
    other: Result<G, Error>,
) -> Result<String, AnyError> {
    agreed(alloc, flat_shown(alloc, one), flat_shown(alloc, other))
}

/// The types, but for Geometry itself.
const KINDS: [&str; 10] = [
    "Point",
    "Line",
    "LineString",
    "Polygon",
    "MultiPoint",
    "MultiLineString",
    "MultiPolygon",
    "GeometryCollection",
    "Rect",
    "Triangle",
];

/// The names of those that the text's geometry becomes.
pub(crate) fn becomes(alloc: Global, text: &str) -> Result<String, AnyError> {
    let mut all = String::new(alloc);
    for name in KINDS {
        if becomes_one(alloc, name, text)? {
            all.push_str(name)?;
        }
    }
    Ok(all)
}

/// Whether the text's geometry becomes that type.
fn becomes_one(alloc: Global, name: &str, text: &str) -> Result<bool, AnyError> {
    match name {
        "Point" => is::<Point<Number>>(alloc, text),
        "Line" => is::<Line<Number>>(alloc, text),
        "LineString" => is::<LineString<Number>>(alloc, text),
        "Polygon" => is::<Polygon<Number>>(alloc, text),
        "MultiPoint" => is::<MultiPoint<Number>>(alloc, text),
        "MultiLineString" => is::<MultiLineString<Number>>(alloc, text),
        "MultiPolygon" => is::<MultiPolygon<Number>>(alloc, text),
        "GeometryCollection" => is::<GeometryCollection<Number>>(alloc, text),
        "Rect" => is::<Rect<Number>>(alloc, text),
        "Triangle" => is::<Triangle<Number>>(alloc, text),
        _ => Ok(false),
    }
}

fn is<G: ConvertFrom<Wkt<Number>> + Drop>(alloc: Global, text: &str) -> Result<bool, AnyError> {
    match G::convert_from(alloc, Wkt::from_str(alloc, text)?) {
        Ok(_) => Ok(true),
        Err(Error::Memory(e)) => Err(AnyError::Memory(e)),
        Err(_) => Ok(false),
    }
}
