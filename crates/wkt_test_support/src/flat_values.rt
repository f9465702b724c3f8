//! Flat values that are made, copied and compared, at many sizes.
use crate::asserts::{equal, holds};
use crate::flat_texts::{TRIANGLE, at, holed, line_string};
use std::alloc::Global;
use std::process::Abort;
use wkt_convert::ToWkt;
use wkt_flat::{
    Geometry, GeometryCollection, Line, LineString, MultiLineString, MultiPoint, MultiPolygon,
    Point, Polygon, Rect, Triangle,
};

/// The rectangle from 4 4 to 8 8, and the line from 1 2 to 3 4.
fn rect_and_line(rt: &impl Abort, alloc: Global) -> GeometryCollection<i32> {
    let rect = Geometry::from(Rect::new(at(4, 4), at(8, 8)));
    let line = Geometry::from(Line::new(at(1, 2), at(3, 4)));
    GeometryCollection::new_from(vec![in alloc; rect, line].expect(rt, "memory"))
}

/// The copy of a collection is equal to it.
fn is_copied(rt: &impl Abort, alloc: Global, all: &GeometryCollection<i32>) {
    holds(rt, all.try_clone(alloc).expect(rt, "memory") == *all);
}

/// The collection without its last member.
fn without_last(
    rt: &impl Abort,
    alloc: Global,
    all: &GeometryCollection<i32>,
) -> GeometryCollection<i32> {
    let mut members = all.try_clone(alloc).expect(rt, "memory").into_inner();
    members.pop();
    GeometryCollection::new_from(members)
}

#[test]
fn copies_of_collections(rt: HostRuntime) {
    let alloc = rt.alloc();
    let all = rect_and_line(&rt, alloc);
    equal(&rt, all.geometries().len(), 2);
    is_copied(&rt, alloc, &all);
    let fewer = without_last(&rt, alloc, &all);
    equal(&rt, fewer.geometries().len(), 1);
    holds(&rt, all != fewer);
}

const ONE: [(i32, i32); 1] = [(1, 2)];

fn add(rt: &impl Abort, all: &mut Vec<Geometry<i32>>, geometry: Geometry<i32>) {
    all.push(geometry).expect(rt, "memory");
}

fn push_plain(rt: &impl Abort, alloc: Global, all: &mut Vec<Geometry<i32>>) {
    add(rt, all, Geometry::from(Point::new(1, 2)));
    add(rt, all, Geometry::from(Line::new(at(1, 2), at(3, 4))));
    add(rt, all, Geometry::from(Rect::new(at(1, 2), at(3, 4))));
    let triangle = Triangle::new(at(1, 2), at(3, 4), at(5, 6));
    add(rt, all, Geometry::from(triangle));
    add(rt, all, Geometry::from(line_string(rt, alloc, &ONE)));
}

fn push_lists(rt: &impl Abort, alloc: Global, all: &mut Vec<Geometry<i32>>) {
    let points = vec![in alloc; Point::new(1, 2)].expect(rt, "memory");
    add(rt, all, Geometry::from(MultiPoint::new(points)));
    let lines = vec![in alloc; line_string(rt, alloc, &ONE)].expect(rt, "memory");
    add(rt, all, Geometry::from(MultiLineString::new(lines)));
    let polygons = vec![in alloc; holed(rt, alloc, &ONE, &TRIANGLE)].expect(rt, "memory");
    add(rt, all, Geometry::from(MultiPolygon::new(polygons)));
    let polygon = holed(rt, alloc, &ONE, &TRIANGLE);
    add(rt, all, Geometry::from(polygon));
}

/// A geometry of each of nine kinds, a collection aside.
fn kinds(rt: &impl Abort, alloc: Global) -> Vec<Geometry<i32>> {
    let mut all = Vec::new(alloc);
    push_plain(rt, alloc, &mut all);
    push_lists(rt, alloc, &mut all);
    all
}

/// It is equal to the geometry at that place, and to no other.
fn is_alone(rt: &impl Abort, geometry: &Geometry<i32>, place: usize, all: &[Geometry<i32>]) {
    for other in 0..all.len() {
        equal(rt, *geometry == all[other], other == place);
    }
}

#[test]
fn copies_of_each_kind(rt: HostRuntime) {
    let all = kinds(&rt, rt.alloc());
    equal(&rt, all.len(), 9);
    for place in 0..all.len() {
        let copy = all[place].try_clone(rt.alloc()).expect(&rt, "memory");
        is_alone(&rt, &copy, place, &all);
    }
}

/// A point in that many collections.
fn nested(rt: &impl Abort, alloc: Global, depth: u32) -> Geometry<i32> {
    let mut all = Geometry::from(Point::new(1, 2));
    for _ in 0..depth {
        let members = vec![in alloc; all].expect(rt, "memory");
        all = Geometry::from(GeometryCollection::new_from(members));
    }
    all
}

/// It is a point in 300 collections, and not in 299.
fn is_deep(rt: &impl Abort, alloc: Global, geometry: &Geometry<i32>) {
    holds(rt, *geometry == nested(rt, alloc, 300));
    holds(rt, *geometry != nested(rt, alloc, 299));
    let text = geometry.wkt_string(alloc).expect(rt, "written");
    equal(rt, text.len(), 300 * 20 + 10);
}

#[test]
fn deep_collections(rt: HostRuntime) {
    let all = nested(&rt, rt.alloc(), 300);
    is_deep(
        &rt,
        rt.alloc(),
        &all.try_clone(rt.alloc()).expect(&rt, "memory"),
    );
}

/// A line string of so many coordinates, 0 1 and 1 1 in turn.
fn long_line_string(rt: &impl Abort, alloc: Global, count: usize) -> LineString<i32> {
    let mut all = Vec::new(alloc);
    let mut first = true;
    for _ in 0..count {
        all.push(at(if first { 0 } else { 1 }, 1))
            .expect(rt, "memory");
        first = !first;
    }
    LineString::new(all)
}

/// The copy of a line string is equal and has so many coordinates.
fn copies_long(rt: &impl Abort, alloc: Global, line: &LineString<i32>, count: usize) {
    let copy = line.try_clone(alloc).expect(rt, "memory");
    equal(rt, (*line == copy, copy.0.len()), (true, count));
}

/// The copy of a polygon is equal and its exterior has so many coordinates.
fn closes_at(rt: &impl Abort, alloc: Global, polygon: &Polygon<i32>, count: usize) {
    let copy = polygon.try_clone(alloc).expect(rt, "memory");
    equal(
        rt,
        (*polygon == copy, copy.exterior().0.len()),
        (true, count),
    );
}

/// A long line string is copied, and closed where it is a ring, which then has that many coordinates.
fn is_long(rt: &impl Abort, alloc: Global, count: usize, closed: usize) {
    let line = long_line_string(rt, alloc, count);
    copies_long(rt, alloc, &line, count);
    let polygon = Polygon::new(alloc, line, Vec::new(alloc)).expect(rt, "memory");
    closes_at(rt, alloc, &polygon, closed);
}

// An odd count ends with the first coordinate.
const CLOSED: &[(usize, usize)] = &[
    (1, 1),
    (2, 3),
    (255, 255),
    (256, 257),
    (300, 301),
    (100_000, 100_001),
];

#[test]
fn long_rings(rt: HostRuntime) {
    for &(count, want) in CLOSED {
        is_long(&rt, rt.alloc(), count, want);
    }
}

/// A polygon of so many interiors that aren't closed.
fn with_interiors(rt: &impl Abort, alloc: Global, count: usize) -> Polygon<i32> {
    let mut rings = Vec::new(alloc);
    for _ in 0..count {
        rings
            .push(line_string(rt, alloc, &[(0, 0), (4, 0)]))
            .expect(rt, "memory");
    }
    Polygon::new(alloc, line_string(rt, alloc, &TRIANGLE), rings).expect(rt, "memory")
}

/// There are so many interiors, and the last has three coordinates.
fn has_closed(rt: &impl Abort, interiors: &[LineString<i32>], count: usize) {
    equal(rt, interiors.len(), count);
    equal(rt, interiors.last().expect(rt, "an interior").0.len(), 3);
}

/// It is copied, and its last interior is closed.
fn closes_interiors(rt: &impl Abort, alloc: Global, count: usize) {
    let polygon = with_interiors(rt, alloc, count);
    has_closed(
        rt,
        polygon.try_clone(alloc).expect(rt, "memory").interiors(),
        count,
    );
}

/// A collection of so many points.
fn of_points(rt: &impl Abort, alloc: Global, count: usize) -> GeometryCollection<i32> {
    let mut members = Vec::new(alloc);
    for _ in 0..count {
        members
            .push(Geometry::from(Point::new(1, 2)))
            .expect(rt, "memory");
    }
    GeometryCollection::new_from(members)
}

/// It is copied.
fn copies_members(rt: &impl Abort, alloc: Global, count: usize) {
    let all = of_points(rt, alloc, count);
    equal(rt, all.geometries().len(), count);
    is_copied(rt, alloc, &all);
}

#[test]
fn many_parts(rt: HostRuntime) {
    for &count in &[1usize, 2, 255, 256, 300, 100_000] {
        closes_interiors(&rt, rt.alloc(), count);
        copies_members(&rt, rt.alloc(), count);
    }
}

#[test]
fn corners_and_numbers(rt: HostRuntime) {
    let point = Point::new(1, 2);
    equal(&rt, (point.x(), point.y()), (1, 2));
    let rect = Rect::new(at(8, 1), at(4, 6));
    holds(&rt, rect.min() == at(4, 1));
    holds(&rt, rect.max() == at(8, 6));
}

#[test]
fn debug_output(rt: HostRuntime) {
    let geometry = Geometry::from(Point::new(1, 2));
    let text = format!(in rt.alloc(); "{geometry:?}").expect(&rt, "memory");
    equal(&rt, text.as_str(), "Point(Point(Coord { x: 1, y: 2 }))");
}
