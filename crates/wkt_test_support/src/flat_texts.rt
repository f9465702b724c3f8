//! The text of a value of each two-dimensional type, by each call that writes it, also to writers that are slow or
//! fail, and the texts of the errors.
use crate::Slow;
use crate::asserts::{equal, holds, says};
use std::alloc::{AllocError, Global};
use std::io;
use std::io::ErrorKind;
use std::process::Abort;
use wkt_access::Error as WriteError;
use wkt_bytes::{Counted, WriterWrapper};
use wkt_convert::{ToWkt, ToWktError};
use wkt_flat::{
    Coord, Geometry, GeometryCollection, Line, LineString, MultiLineString, MultiPoint,
    MultiPolygon, Point, Polygon, Rect, Triangle,
};
use wkt_num::{CountedText, Decimal, TextSink, WktNum};
use wkt_types::{ConvertError as Error, Dimension, Point as WktPoint};
use wkt_write::{
    write_geometry, write_geometry_collection, write_line, write_linestring,
    write_multi_linestring, write_multi_point, write_multi_polygon, write_point, write_polygon,
    write_rect, write_triangle,
};

pub(crate) fn at(x: i32, y: i32) -> Coord<i32> {
    Coord { x, y }
}

/// Three corners.
pub(crate) const TRIANGLE: [(i32, i32); 3] = [(0, 0), (4, 0), (2, 4)];

/// The line string through those coordinates.
pub(crate) fn line_string(
    rt: &impl Abort,
    alloc: Global,
    coords: &[(i32, i32)],
) -> LineString<i32> {
    let mut all = Vec::new(alloc);
    for &(x, y) in coords {
        all.push(at(x, y)).expect(rt, "memory");
    }
    LineString::new(all)
}

/// The polygon of an exterior and one interior.
pub(crate) fn holed(
    rt: &impl Abort,
    alloc: Global,
    exterior: &[(i32, i32)],
    interior: &[(i32, i32)],
) -> Polygon<i32> {
    let interiors = vec![in alloc; line_string(rt, alloc, interior)].expect(rt, "memory");
    Polygon::new(alloc, line_string(rt, alloc, exterior), interiors).expect(rt, "memory")
}

/// The three calls of `ToWkt` give that text.
fn gives<G: ToWkt<i32>>(rt: &impl Abort, alloc: Global, value: &G, want: &str) {
    let wkt = value.to_wkt(alloc).expect(rt, "memory");
    equal(
        rt,
        format!(in alloc; "{wkt}").expect(rt, "memory").as_str(),
        want,
    );
    equal(
        rt,
        value.wkt_string(alloc).expect(rt, "written").as_str(),
        want,
    );
    let mut out = Counted::new(Vec::<u8>::new(alloc));
    value.write_wkt(alloc, &mut out).expect(rt, "written");
    equal(rt, out.into_inner().as_slice(), want.as_bytes());
}

/// The value as what it is gives that text.
fn gives_by_kind(rt: &impl Abort, alloc: Global, value: &Geometry<i32>, want: &str) {
    match value {
        Geometry::Point(x) => gives(rt, alloc, x, want),
        Geometry::Line(x) => gives(rt, alloc, x, want),
        Geometry::LineString(x) => gives(rt, alloc, x, want),
        Geometry::Polygon(x) => gives(rt, alloc, x, want),
        Geometry::MultiPoint(x) => gives(rt, alloc, x, want),
        Geometry::MultiLineString(x) => gives(rt, alloc, x, want),
        Geometry::MultiPolygon(x) => gives(rt, alloc, x, want),
        Geometry::GeometryCollection(x) => gives(rt, alloc, x, want),
        Geometry::Rect(x) => gives(rt, alloc, x, want),
        Geometry::Triangle(x) => gives(rt, alloc, x, want),
    }
}

/// Writes the value by the writer of its kind.
fn write_by_kind<W: TextSink>(sink: &mut W, value: &Geometry<i32>) -> Result<(), WriteError> {
    match value {
        Geometry::Point(x) => write_point(sink, x),
        Geometry::Line(x) => write_line(sink, x),
        Geometry::LineString(x) => write_linestring(sink, x),
        Geometry::Polygon(x) => write_polygon(sink, x),
        Geometry::MultiPoint(x) => write_multi_point(sink, x),
        Geometry::MultiLineString(x) => write_multi_linestring(sink, x),
        Geometry::MultiPolygon(x) => write_multi_polygon(sink, x),
        Geometry::GeometryCollection(x) => write_geometry_collection(sink, x),
        Geometry::Rect(x) => write_rect(sink, x),
        Geometry::Triangle(x) => write_triangle(sink, x),
    }
}

/// The value is written so by the writers of its kind and of any.
fn writers_give(rt: &impl Abort, alloc: Global, value: &Geometry<i32>, want: &str) {
    let mut text = String::new(alloc);
    write_by_kind(&mut CountedText::new(&mut text), value).expect(rt, "written");
    equal(rt, text.as_str(), want);
    text.clear();
    write_geometry(&mut CountedText::new(&mut text), value).expect(rt, "written");
    equal(rt, text.as_str(), want);
}

/// The value, its copy and what it is are written so, by every call.
fn is_written(rt: &impl Abort, alloc: Global, value: Geometry<i32>, want: &str) {
    gives(rt, alloc, &value, want);
    gives_by_kind(rt, alloc, &value, want);
    let copy = value.try_clone(alloc).expect(rt, "memory");
    holds(rt, copy == value);
    writers_give(rt, alloc, &copy, want);
}

#[test]
fn single_values(rt: HostRuntime) {
    let alloc = rt.alloc();
    is_written(&rt, alloc, Geometry::from(Point::new(1, 2)), "POINT(1 2)");
    let line = Geometry::from(Line::new(at(1, 2), at(3, 4)));
    is_written(&rt, alloc, line, "LINESTRING(1 2,3 4)");
}

/// The value and its polygon are written so.
fn both_give(
    rt: &impl Abort,
    alloc: Global,
    polygon: Polygon<i32>,
    value: Geometry<i32>,
    want: &str,
) {
    gives(rt, alloc, &polygon, want);
    is_written(rt, alloc, value, want);
}

#[test]
fn rectangles(rt: HostRuntime) {
    let rect = Rect::new(at(8, 1), at(4, 6));
    let polygon = rect.to_polygon(rt.alloc()).expect(&rt, "memory");
    let want = "POLYGON((8 1,8 6,4 6,4 1,8 1))";
    both_give(&rt, rt.alloc(), polygon, Geometry::from(rect), want);
}

#[test]
fn triangles(rt: HostRuntime) {
    let triangle = Triangle::new(at(0, 0), at(4, 0), at(2, 4));
    let polygon = triangle.to_polygon(rt.alloc()).expect(&rt, "memory");
    let want = "POLYGON((0 0,4 0,2 4,0 0))";
    both_give(&rt, rt.alloc(), polygon, Geometry::from(triangle), want);
}

// An exterior, an interior, and the text of their polygon.
const POLYGONS: &[(&[(i32, i32)], &[(i32, i32)], &str)] = &[
    (&TRIANGLE, &[], "POLYGON((0 0,4 0,2 4,0 0),EMPTY)"),
    (
        &[(0, 0), (4, 0), (2, 4), (0, 0)],
        &[(1, 2)],
        "POLYGON((0 0,4 0,2 4,0 0),(1 2))",
    ),
    (
        &[(1, 2)],
        &[(7, 3), (4, 1), (1, 4)],
        "POLYGON((1 2),(7 3,4 1,1 4,7 3))",
    ),
    (&[], &[(1, 2)], "POLYGON EMPTY"),
];

#[test]
fn polygons(rt: HostRuntime) {
    for &(exterior, interior, want) in POLYGONS {
        let polygon = holed(&rt, rt.alloc(), exterior, interior);
        is_written(&rt, rt.alloc(), Geometry::from(polygon), want);
    }
}

#[test]
fn a_polygon_without_exterior(rt: HostRuntime) {
    let hollow = holed(&rt, rt.alloc(), &[], &[(1, 2)]);
    equal(&rt, hollow.exterior().0.len(), 0);
    equal(&rt, hollow.interiors().len(), 1);
}

#[test]
fn lists_of_points(rt: HostRuntime) {
    let alloc = rt.alloc();
    let line = Geometry::from(line_string(&rt, alloc, &[(10, -20), (0, 5)]));
    is_written(&rt, alloc, line, "LINESTRING(10 -20,0 5)");
    let points = vec![in alloc; Point::new(8, 4), Point::new(4, 0)].expect(&rt, "memory");
    let points = Geometry::from(MultiPoint::new(points));
    is_written(&rt, alloc, points, "MULTIPOINT((8 4),(4 0))");
}

#[test]
fn lists_of_line_strings(rt: HostRuntime) {
    let alloc = rt.alloc();
    let one = line_string(&rt, alloc, &[(8, 4), (-3, 0)]);
    let lines = vec![in alloc; one, line_string(&rt, alloc, &[])].expect(&rt, "memory");
    let lines = Geometry::from(MultiLineString::new(lines));
    is_written(&rt, alloc, lines, "MULTILINESTRING((8 4,-3 0),EMPTY)");
}

#[test]
fn lists_of_polygons(rt: HostRuntime) {
    let alloc = rt.alloc();
    let one = holed(&rt, alloc, &[], &[(1, 2)]);
    let polygons = vec![in alloc; one, holed(&rt, alloc, &TRIANGLE, &[])].expect(&rt, "memory");
    let polygons = Geometry::from(MultiPolygon::new(polygons));
    let want = "MULTIPOLYGON(EMPTY,((0 0,4 0,2 4,0 0),EMPTY))";
    is_written(&rt, alloc, polygons, want);
}

#[test]
fn collections(rt: HostRuntime) {
    let alloc = rt.alloc();
    let rect = Geometry::from(Rect::new(at(4, 4), at(8, 8)));
    let line = Geometry::from(Line::new(at(1, 2), at(3, 4)));
    let members = vec![in alloc; rect, line].expect(&rt, "memory");
    let all = Geometry::from(GeometryCollection::new_from(members));
    let want = "GEOMETRYCOLLECTION(POLYGON((8 4,8 8,4 8,4 4,8 4)),LINESTRING(1 2,3 4))";
    is_written(&rt, alloc, all, want);
}

#[test]
fn empty_lists(rt: HostRuntime) {
    let alloc = rt.alloc();
    let line = Geometry::from(line_string(&rt, alloc, &[]));
    is_written(&rt, alloc, line, "LINESTRING EMPTY");
    let points = Geometry::from(MultiPoint::new(Vec::new(alloc)));
    is_written(&rt, alloc, points, "MULTIPOINT EMPTY");
    let lines = Geometry::from(MultiLineString::new(Vec::new(alloc)));
    is_written(&rt, alloc, lines, "MULTILINESTRING EMPTY");
}

#[test]
fn empty_lists_of_parts(rt: HostRuntime) {
    let alloc = rt.alloc();
    let polygons = Geometry::from(MultiPolygon::new(Vec::new(alloc)));
    is_written(&rt, alloc, polygons, "MULTIPOLYGON EMPTY");
    let all = Geometry::from(GeometryCollection::new_from(Vec::new(alloc)));
    is_written(&rt, alloc, all, "GEOMETRYCOLLECTION EMPTY");
}

/// A point that has no coordinate has no flat value.
#[test]
fn an_empty_point_is_refused(rt: HostRuntime) {
    let empty = WktPoint::<Decimal<6>>::empty(Dimension::XYZ);
    holds(
        &rt,
        matches!(Point::try_from(empty), Err(Error::PointConversionError)),
    );
}

#[test]
fn refusals_have_texts(rt: HostRuntime) {
    let alloc = rt.alloc();
    let want = "The WKT Point was empty, but geo_type::Points cannot be empty";
    says(&rt, alloc, Error::PointConversionError, want);
    let (expected, found) = ("Point", "MultiPoint");
    let want = "Mismatched geometry (expected \"Point\", found \"MultiPoint\")";
    let error = Error::MismatchedGeometry { expected, found };
    says(&rt, alloc, error, want);
    let want = "Wrong number of Geometries: 3";
    says(&rt, alloc, Error::WrongNumberOfGeometries(3), want);
    let want = "Invalid WKT: End of stream";
    says(&rt, alloc, Error::InvalidWKT("End of stream"), want);
    let fault = io::Error::from(ErrorKind::Other);
    let want = "External error: read fault";
    says(&rt, alloc, Error::Reader(fault), want);
    says(&rt, alloc, Error::Utf8, "External error: not UTF-8");
    says(&rt, alloc, Error::Memory(AllocError), "out of memory");
}

type Number = Decimal<6>;

const TEXT: &[u8] = b"POINT(1.2 3.4)";

fn point() -> Point<Number> {
    Point::new(
        Decimal::from_units(1_200_000),
        Decimal::from_units(3_400_000),
    )
}

/// The kind of the writer's error in the answer.
fn io_kind(answer: Result<(), ToWktError>) -> Option<ErrorKind> {
    match answer {
        Err(ToWktError::Io(e)) => Some(e.kind()),
        _ => None,
    }
}

/// The value is written by a byte a call.
fn writes_bytewise<T: WktNum, G: ToWkt<T>>(rt: &impl Abort, alloc: Global, value: &G, want: &[u8]) {
    let mut writer = Slow::new(1, 100);
    value.write_wkt(alloc, &mut writer).expect(rt, "written");
    equal(rt, writer.taken(), want);
    equal(rt, writer.calls, 100usize.wrapping_sub(want.len()));
}

#[test]
fn one_byte_a_call(rt: HostRuntime) {
    let alloc = rt.alloc();
    writes_bytewise(&rt, alloc, &point(), TEXT);
    writes_bytewise(&rt, alloc, &Geometry::from(point()), TEXT);
    let rect = Rect::new(Coord { x: 4i32, y: 4 }, Coord { x: 8, y: 8 });
    writes_bytewise(&rt, alloc, &rect, b"POLYGON((8 4,8 8,4 8,4 4,8 4))");
}

/// The value isn't written: the writer's pipe is broken, when it has taken that.
fn breaks<G: ToWkt<Number>>(
    rt: &impl Abort,
    alloc: Global,
    value: &G,
    mut writer: Slow,
    want: &[u8],
) {
    let answer = value.write_wkt(alloc, &mut writer);
    equal(rt, io_kind(answer), Some(ErrorKind::BrokenPipe));
    equal(rt, writer.taken(), want);
}

#[test]
fn fails_at_each_call(rt: HostRuntime) {
    let alloc = rt.alloc();
    let geometry = Geometry::from(point());
    for calls in 0..14 {
        let want = &TEXT[..calls];
        breaks(&rt, alloc, &point(), Slow::new(1, calls), want);
        breaks(&rt, alloc, &geometry, Slow::new(1, calls), want);
    }
    breaks(&rt, alloc, &point(), Slow::new(5, 1), b"POINT");
}

#[test]
fn takes_nothing(rt: HostRuntime) {
    let mut writer = Slow::new(0, 100);
    let answer = point().write_wkt(rt.alloc(), &mut writer);
    equal(&rt, io_kind(answer), Some(ErrorKind::WriteZero));
    equal(&rt, writer.taken().len(), 0);
    equal(&rt, writer.calls, 99);
}

/// A line string of a hundred coordinates.
fn long_line(rt: &impl Abort, alloc: Global) -> LineString<i32> {
    let mut coords = Vec::new(alloc);
    for _ in 0..100 {
        coords.push(Coord { x: 1i32, y: 1 }).expect(rt, "memory");
    }
    LineString(coords)
}

#[test]
fn gathers_256_bytes(rt: HostRuntime) {
    let line = long_line(&rt, rt.alloc());
    let mut writer = Slow::new(1000, 100);
    line.write_wkt(rt.alloc(), &mut writer)
        .expect(&rt, "written");
    equal(&rt, (writer.len, writer.calls), (411, 98));
    let mut writer = Slow::new(1000, 1);
    let answer = line.write_wkt(rt.alloc(), &mut writer);
    equal(&rt, io_kind(answer), Some(ErrorKind::BrokenPipe));
    equal(&rt, writer.len, 256);
}

#[test]
fn gathers_pieces(rt: HostRuntime) {
    let piece = "POINT Z ".repeat(rt.alloc(), 16).expect(&rt, "memory");
    let mut writer = Slow::new(1000, 100);
    let mut wrapper = WriterWrapper::new(&mut writer);
    holds(&rt, wrapper.write_str(&piece).is_ok());
    holds(&rt, wrapper.write_str(&piece).is_ok());
    holds(&rt, wrapper.finish().is_ok());
    wrapper.into_writer();
    equal(&rt, (writer.len, writer.calls), (256, 99));
}

#[test]
fn errors_have_texts(rt: HostRuntime) {
    let alloc = rt.alloc();
    let want = "A coordinate has fewer numbers than its dimension.";
    let shape = ToWktError::Shape(WriteError::TooFewNumbers);
    says(&rt, alloc, shape, want);
    let fault = io::Error::from(ErrorKind::WriteZero);
    let want = fault.to_string(alloc).expect(&rt, "memory");
    says(&rt, alloc, ToWktError::Io(fault), want.as_str());
}
