//! Calls that make a geometry or a text of another, by their names, and the builders of geometries, called with the
//! numbers that a text holds.
use crate::calls::Number;
use std::alloc::{AllocError, Global};
use wkt::error::Error as WriteError;
use wkt::geo_types::{Geometry, Line, LineString, Rect, Triangle};
use wkt::literals::{line_string, point, polygon};
use wkt::to_wkt::{
    Counted, ReadAllError, StringText, TextSink, write_geometry_collection, write_line,
    write_linestring, write_multi_linestring, write_multi_point, write_multi_polygon, write_point,
    write_polygon, write_rect, write_triangle,
};
use wkt::types::{self, Coord, Point, Polygon};
use wkt::{AnyError, FromWktStr, ReadError, TryFromWkt, Wkt};
use wkt_lines::Lines;

/// The geometry of a text made canonical, if its text is read as the same.
pub(crate) fn canonical(alloc: Global, text: &str) -> Result<String, AnyError> {
    let geometry = Wkt::<Number>::from_str(alloc, text)?.into_canonical();
    text_if_read(alloc, &geometry)
}

fn text_if_read(alloc: Global, geometry: &Wkt<Number>) -> Result<String, AnyError> {
    let text = geometry.to_string(alloc)?;
    if reads_as(alloc, &text, geometry)? {
        Ok(text)
    } else {
        Ok(String::from_str(alloc, "another geometry")?)
    }
}

fn reads_as(alloc: Global, text: &str, geometry: &Wkt<Number>) -> Result<bool, ReadError> {
    Ok(Wkt::from_str(alloc, text)? == *geometry)
}

/// The two-dimensional geometry of a text, behind a word, by the writer of its kind; of a line string also as the kind
/// that is asked for.
pub(crate) fn pushed(alloc: Global, of: &str, text: &str) -> Result<String, AnyError> {
    let geometry = Geometry::<Number>::try_from_wkt_str(alloc, text)?;
    behind_word(alloc, of, &geometry)
}

fn behind_word(alloc: Global, of: &str, geometry: &Geometry<Number>) -> Result<String, AnyError> {
    let mut out = String::from_str(alloc, "is ")?;
    match push_by_kind(&mut out, of, geometry) {
        Ok(()) => Ok(out),
        // The string couldn't grow.
        Err(WriteError::FmtError(_)) => Err(AnyError::Memory(AllocError)),
        Err(error) => Err(AnyError::Write(error)),
    }
}

/// Adds the text of a geometry to a string, by the writer of its kind.
fn push_by_kind(out: &mut String, of: &str, geometry: &Geometry<Number>) -> Result<(), WriteError> {
    let mut sink = StringText::new(out);
    let result = write_by_kind(&mut sink, of, geometry);
    sink.into_string();
    result
}

fn write_by_kind<W: TextSink>(
    sink: &mut W,
    of: &str,
    geometry: &Geometry<Number>,
) -> Result<(), WriteError> {
    match geometry {
        Geometry::Point(x) => write_point(sink, x),
        Geometry::LineString(x) => write_line_string(sink, of, x),
        Geometry::Polygon(x) => write_polygon(sink, x),
        Geometry::MultiPoint(x) => write_multi_point(sink, x),
        Geometry::MultiLineString(x) => write_multi_linestring(sink, x),
        Geometry::MultiPolygon(x) => write_multi_polygon(sink, x),
        Geometry::GeometryCollection(x) => write_geometry_collection(sink, x),
        // No text is read as one of these.
        Geometry::Line(_) | Geometry::Rect(_) | Geometry::Triangle(_) => Ok(()),
    }
}

fn write_line_string<W: TextSink>(
    sink: &mut W,
    of: &str,
    line_string: &LineString<Number>,
) -> Result<(), WriteError> {
    match (of, line_string.0.as_slice()) {
        ("Line", [a, b]) => write_line(sink, &Line::new(*a, *b)),
        ("Rect", [a, b]) => write_rect(sink, &Rect::new(*a, *b)),
        ("Triangle", [a, b, c]) => write_triangle(sink, &Triangle::new(*a, *b, *c)),
        _ => write_linestring(sink, line_string),
    }
}

/// The lines of a text, each in brackets.
pub(crate) fn lines(alloc: Global, text: &str) -> Result<String, AnyError> {
    let mut out = String::new(alloc);
    match add_lines(alloc, &mut out, text) {
        Ok(()) => Ok(out),
        Err(ReadAllError::Memory(error)) => Err(AnyError::Memory(error)),
        Err(ReadAllError::Read(_)) => Ok(String::from_str(alloc, "a read fault")?),
    }
}

fn add_lines(alloc: Global, out: &mut String, text: &str) -> Result<(), ReadAllError> {
    let mut lines = Lines::new(alloc, Counted::new(text.as_bytes()));
    for _ in 0..1000 {
        if !lines.advance()? {
            return Ok(());
        }
        add_line(out, lines.line()).map_err(ReadAllError::Memory)?;
    }
    add_line(out, b"too many lines").map_err(ReadAllError::Memory)
}

fn add_line(out: &mut String, line: &[u8]) -> Result<(), AllocError> {
    for piece in ["[", str::from_utf8(line).unwrap_or("no text"), "]"] {
        out.push_str(piece)?;
    }
    Ok(())
}

/// The point, line string or polygon of a text, made again of the pairs of numbers in it.
pub(crate) fn built(alloc: Global, text: &str) -> Result<String, AnyError> {
    let geometry = Wkt::<Number>::from_str(alloc, text)?;
    Ok(built_again(alloc, &geometry)?)
}

fn built_again(alloc: Global, geometry: &Wkt<Number>) -> Result<String, AllocError> {
    match geometry {
        Wkt::Point(x) => point_again(alloc, x),
        Wkt::LineString(x) => line_string_again(alloc, x.coords()),
        Wkt::Polygon(x) => polygon_again(alloc, x.rings()),
        _ => String::from_str(alloc, "another kind"),
    }
}

fn point_again(alloc: Global, of: &Point<Number>) -> Result<String, AllocError> {
    match of.coord() {
        Some(coord) => Wkt::from(point(coord.x, coord.y)).to_string(alloc),
        None => String::from_str(alloc, "no coordinate"),
    }
}

fn line_string_again(alloc: Global, coords: &[Coord<Number>]) -> Result<String, AllocError> {
    let pairs = pairs(alloc, coords)?;
    Wkt::from(line_string(alloc, pairs.as_slice())?).to_string(alloc)
}

fn polygon_again(alloc: Global, rings: &[types::LineString<Number>]) -> Result<String, AllocError> {
    Wkt::from(polygon_of(alloc, rings)?).to_string(alloc)
}

/// The polygon of no ring, of the exterior, or of the exterior and the first interior.
fn polygon_of(
    alloc: Global,
    rings: &[types::LineString<Number>],
) -> Result<Polygon<Number>, AllocError> {
    match rings {
        [] => polygon(alloc, &[]),
        [exterior] => {
            let exterior = pairs(alloc, exterior.coords())?;
            polygon(alloc, &[exterior.as_slice()])
        }
        [exterior, interior, ..] => {
            let exterior = pairs(alloc, exterior.coords())?;
            with_interior(alloc, exterior.as_slice(), interior.coords())
        }
    }
}

fn with_interior(
    alloc: Global,
    exterior: &[(Number, Number)],
    interior: &[Coord<Number>],
) -> Result<Polygon<Number>, AllocError> {
    let interior = pairs(alloc, interior)?;
    polygon(alloc, &[exterior, interior.as_slice()])
}

/// The x and the y of each coordinate.
fn pairs(alloc: Global, coords: &[Coord<Number>]) -> Result<Vec<(Number, Number)>, AllocError> {
    let mut pairs = Vec::new(alloc);
    for coord in coords {
        pairs.push((coord.x, coord.y))?;
    }
    Ok(pairs)
}
