//! Values that are made by hand, displayed, copied and compared, and the texts of the errors of writing.
use crate::asserts::{equal, holds, says};
use std::alloc::{AllocError, Global};
use std::fmt;
use std::process::Abort;
use wkt_access::Error;
use wkt_num::Decimal;
use wkt_types::{
    Coord, Dimension, GeometryCollection, LineString, MultiLineString, MultiPoint, MultiPolygon,
    Point, Polygon, Wkt,
};
use wkt_write::push_geometry;

/// A coordinate of whole numbers.
fn xyzm(x: i32, y: i32, z: Option<i32>, m: Option<i32>) -> Coord<i32> {
    Coord { x, y, z, m }
}

/// A coordinate of two whole numbers.
fn xy(x: i32, y: i32) -> Coord<i32> {
    xyzm(x, y, None, None)
}

/// A line string of coordinates that are one number twice.
fn line_string(rt: &impl Abort, alloc: Global, numbers: &[i32]) -> LineString<i32> {
    let mut coords = Vec::new(alloc);
    for &n in numbers {
        coords.push(xy(n, n)).expect(rt, "memory");
    }
    LineString::new(coords, Dimension::XY)
}

/// The geometry is displayed so.
fn shows(rt: &impl Abort, alloc: Global, wkt: &Wkt<i32>, want: &str) {
    equal(
        rt,
        wkt.to_string(alloc).expect(rt, "written").as_str(),
        want,
    );
}

#[test]
fn without_a_dimension_named(rt: HostRuntime) {
    equal(&rt, Dimension::default(), Dimension::XY);
}

/// A line string of one coordinate.
fn short_line(rt: &impl Abort, alloc: Global, coord: Coord<i32>, dim: Dimension) -> Wkt<i32> {
    Wkt::from(LineString::new(vec![in alloc; coord].expect(rt, "memory"), dim))
}

#[test]
fn spare_and_missing_numbers(rt: HostRuntime) {
    let alloc = rt.alloc();
    let spare = short_line(&rt, alloc, xyzm(1, 2, Some(3), Some(4)), Dimension::XYM);
    shows(&rt, alloc, &spare, "LINESTRING M(1 2 3)");
    has_too_few(
        &rt,
        alloc,
        &short_line(&rt, alloc, xy(1, 2), Dimension::XYZ),
    );
}

/// The geometry isn't written, since a coordinate has fewer numbers than its dimension.
fn has_too_few(rt: &impl Abort, alloc: Global, wkt: &Wkt<i32>) {
    let mut text = String::from_str(alloc, "at: ").expect(rt, "memory");
    let written = push_geometry(&mut text, wkt);
    holds(rt, matches!(written, Err(Error::TooFewNumbers)));
    equal(rt, text.as_str(), "at: ");
}

/// A multipoint of these members.
fn multipoint(alloc: Global, members: &[Option<Coord<i32>>], dim: Dimension) -> MultiPoint<i32> {
    let mut points = Vec::new(alloc);
    for &member in members {
        let _ = points.push(Point::new(member, dim));
    }
    MultiPoint::new(points, dim)
}

#[test]
fn empty_members(rt: HostRuntime) {
    let alloc = rt.alloc();
    let short = multipoint(alloc, &[Some(xy(1, 2)), None], Dimension::XYZ);
    has_too_few(&rt, alloc, &Wkt::from(short));
    let one = Wkt::from(Point::from_coord(xy(1, 2)));
    let other = Wkt::from(multipoint(alloc, &[None], Dimension::XY));
    let members = vec![in alloc; one, other].expect(&rt, "memory");
    let both = Wkt::from(GeometryCollection::new(members, Dimension::XY));
    let want = "GEOMETRYCOLLECTION(POINT(1 2),MULTIPOINT(EMPTY))";
    shows(&rt, alloc, &both, want);
}

#[test]
fn empty_of_each_kind(rt: HostRuntime) {
    let alloc = rt.alloc();
    let dims = [
        (Dimension::XY, ""),
        (Dimension::XYZ, " Z"),
        (Dimension::XYM, " M"),
        (Dimension::XYZM, " ZM"),
    ];
    for &(dim, named) in &dims {
        let kinds = [
            ("POINT", Wkt::from(Point::empty(dim))),
            ("LINESTRING", Wkt::from(LineString::empty(alloc, dim))),
            ("POLYGON", Wkt::from(Polygon::empty(alloc, dim))),
            ("MULTIPOINT", Wkt::from(MultiPoint::empty(alloc, dim))),
            (
                "MULTILINESTRING",
                Wkt::from(MultiLineString::empty(alloc, dim)),
            ),
            ("MULTIPOLYGON", Wkt::from(MultiPolygon::empty(alloc, dim))),
            (
                "GEOMETRYCOLLECTION",
                Wkt::from(GeometryCollection::empty(alloc, dim)),
            ),
        ];
        for (word, wkt) in &kinds {
            let want = [*word, named, " EMPTY"].concat(alloc).expect(&rt, "memory");
            shows(&rt, alloc, wkt, want.as_str());
        }
    }
}

#[test]
fn rings_behind_an_empty_one(rt: HostRuntime) {
    let alloc = rt.alloc();
    let one = line_string(&rt, alloc, &[]);
    let rings = vec![in alloc; one, line_string(&rt, alloc, &[1])].expect(&rt, "memory");
    let polygon = Wkt::from(Polygon::new(rings, Dimension::XYZ));
    shows(&rt, alloc, &polygon, "POLYGON Z EMPTY");
}

/// A collection of two points of other dimensions than its own.
fn two_members(rt: &impl Abort, alloc: Global) -> GeometryCollection<i32> {
    let first = Wkt::from(Point::from_coord(xy(1, 2)));
    let second = Wkt::from(Point::from_coord(xyzm(1, 2, None, Some(3))));
    let members = vec![in alloc; first, second].expect(rt, "memory");
    GeometryCollection::new(members, Dimension::XYZ)
}

#[test]
fn collections(rt: HostRuntime) {
    let alloc = rt.alloc();
    let want = "GEOMETRYCOLLECTION Z(POINT(1 2),POINT M(1 2 3))";
    let both = two_members(&rt, alloc);
    equal(
        &rt,
        both.to_string(alloc).expect(&rt, "written").as_str(),
        want,
    );
    shows(&rt, alloc, &Wkt::from(both), want);
}

#[test]
fn of_no_coordinates(rt: HostRuntime) {
    let alloc = rt.alloc();
    let none: Vec<Coord<i32>> = Vec::new(alloc);
    let line = LineString::from_coords(alloc, none.into_iter()).expect(&rt, "memory");
    holds(&rt, line.is_none());
}

#[test]
fn of_no_members(rt: HostRuntime) {
    let alloc = rt.alloc();
    let none: Vec<Wkt<i32>> = Vec::new(alloc);
    let all = GeometryCollection::from_geometries(alloc, none.into_iter()).expect(&rt, "memory");
    holds(&rt, all.is_none());
}

// One, in decimals of six places.
const ONE: i128 = 1_000_000;

/// A line string of decimals, by their units.
fn decimals(rt: &impl Abort, alloc: Global, coords: &[(i128, i128)]) -> LineString<Decimal<6>> {
    let mut all = Vec::new(alloc);
    for &(x, y) in coords {
        let coord = Coord {
            x: Decimal::<6>::from_units(x),
            y: Decimal::<6>::from_units(y),
            z: None,
            m: None,
        };
        all.push(coord).expect(rt, "memory");
    }
    let line = LineString::from_coords(alloc, all.into_iter()).expect(rt, "memory");
    line.expect(rt, "coordinates")
}

#[test]
fn from_line_strings(rt: HostRuntime) {
    let alloc = rt.alloc();
    let first = decimals(
        &rt,
        alloc,
        &[(10_100_000, 20_200_000), (30_300_000, 40_400_000)],
    );
    let second = decimals(
        &rt,
        alloc,
        &[(50_500_000, 60_600_000), (70_700_000, 80_800_000)],
    );
    let lines = vec![in alloc; first, second].expect(&rt, "memory");
    let all = MultiLineString::from_line_strings(alloc, lines.into_iter()).expect(&rt, "memory");
    let text = all.expect(&rt, "lines").to_string(alloc);
    equal(
        &rt,
        text.expect(&rt, "written").as_str(),
        "MULTILINESTRING((10.1 20.2,30.3 40.4),(50.5 60.6,70.7 80.8))",
    );
}

/// A polygon of such rings.
fn polygon(
    rt: &impl Abort,
    alloc: Global,
    rings: Vec<LineString<Decimal<6>>>,
) -> Polygon<Decimal<6>> {
    let polygon = Polygon::from_rings(alloc, rings.into_iter()).expect(rt, "memory");
    polygon.expect(rt, "rings")
}

#[test]
fn from_polygons(rt: HostRuntime) {
    let alloc = rt.alloc();
    let triangle = decimals(
        &rt,
        alloc,
        &[(0, 0), (20 * ONE, 40 * ONE), (40 * ONE, 0), (0, 0)],
    );
    let hole = decimals(
        &rt,
        alloc,
        &[
            (5 * ONE, 5 * ONE),
            (20 * ONE, 30 * ONE),
            (30 * ONE, 5 * ONE),
            (5 * ONE, 5 * ONE),
        ],
    );
    let other = decimals(
        &rt,
        alloc,
        &[
            (40 * ONE, 40 * ONE),
            (20 * ONE, 45 * ONE),
            (45 * ONE, 30 * ONE),
            (40 * ONE, 40 * ONE),
        ],
    );
    let first = polygon(
        &rt,
        alloc,
        vec![in alloc; triangle, hole].expect(&rt, "memory"),
    );
    let second = polygon(&rt, alloc, vec![in alloc; other].expect(&rt, "memory"));
    let polygons = vec![in alloc; first, second].expect(&rt, "memory");
    let all = MultiPolygon::from_polygons(alloc, polygons.into_iter()).expect(&rt, "memory");
    let text = all.expect(&rt, "polygons").to_string(alloc);
    equal(
        &rt,
        text.expect(&rt, "written").as_str(),
        "MULTIPOLYGON(((0 0,20 40,40 0,0 0),(5 5,20 30,30 5,5 5)),((40 40,20 45,45 30,40 40)))",
    );
}

#[test]
fn options_change_nothing(rt: HostRuntime) {
    let point = Point::from_coord(Coord {
        x: Decimal::<6>::from_units(10_123_450),
        y: Decimal::from_units(20_678_910),
        z: Some(Decimal::from_units(-32_564_550)),
        m: Some(Decimal::from_units(10_000_000)),
    });
    let text = format!(in rt.alloc(); "<{point:>60.2}>").expect(&rt, "memory");
    let want = "<POINT ZM(10.12345 20.67891 -32.56455 10)>";
    equal(&rt, text.as_str(), want);
}

/// A line in that many collections.
fn nested_line(rt: &impl Abort, alloc: Global, depth: u32) -> Wkt<i32> {
    let mut all = Wkt::from(line_string(rt, alloc, &[1, 3]));
    for _ in 0..depth {
        let members = vec![in alloc; all].expect(rt, "memory");
        all = Wkt::from(GeometryCollection::new(members, Dimension::XYZ));
    }
    all
}

/// It is a line in 300 collections, and not in 299.
fn is_nested_so(rt: &impl Abort, alloc: Global, wkt: &Wkt<i32>) {
    holds(rt, *wkt == nested_line(rt, alloc, 300));
    holds(rt, *wkt != nested_line(rt, alloc, 299));
    equal(
        rt,
        wkt.to_string(alloc).expect(rt, "memory").len(),
        300 * 22 + 19,
    );
}

#[test]
fn copies_are_equal(rt: HostRuntime) {
    let all = nested_line(&rt, rt.alloc(), 300);
    is_nested_so(
        &rt,
        rt.alloc(),
        &all.try_clone(rt.alloc()).expect(&rt, "memory"),
    );
}

/// A line string of so many coordinates.
fn long(rt: &impl Abort, alloc: Global, n: usize) -> LineString<i32> {
    let mut coords = Vec::new(alloc);
    for _ in 0..n {
        coords.push(xy(1, 1)).expect(rt, "memory");
    }
    let line = LineString::from_coords(alloc, coords.into_iter()).expect(rt, "memory");
    line.expect(rt, "coordinates")
}

/// The copy of a line string is equal and has so many coordinates.
fn copy_has(rt: &impl Abort, alloc: Global, line: &LineString<i32>, n: usize) {
    let copy = line.try_clone(alloc).expect(rt, "memory");
    equal(rt, (*line == copy, copy.coords().len()), (true, n));
}

#[test]
fn long_copies(rt: HostRuntime) {
    for &n in &[1usize, 2, 300, 100_000] {
        copy_has(&rt, rt.alloc(), &long(&rt, rt.alloc(), n), n);
    }
}

#[test]
fn why_a_geometry_is_not_written(rt: HostRuntime) {
    let alloc = rt.alloc();
    let want = "Only 2D input is supported when writing Rect to WKT.";
    says(&rt, alloc, Error::RectUnsupportedDimension, want);
    let want = "Only defined dimensions and undefined dimensions of 2, 3, or 4 are supported.";
    says(&rt, alloc, Error::UnknownDimension, want);
    let want = "an error occurred when formatting an argument";
    says(&rt, alloc, Error::FmtError(fmt::Error), want);
    let want = "A coordinate has fewer numbers than its dimension.";
    says(&rt, alloc, Error::TooFewNumbers, want);
    says(&rt, alloc, Error::Memory(AllocError), "out of memory");
}
