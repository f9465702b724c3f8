//! The custom representation of `my_map`, written by all eleven writers.
use crate::my_map::{Area, Areas, Corners, Dot, Dots, Figure, Map, Segment, Spot, Track, Tracks};
use crate::tests::{equal, holds};
use std::alloc::Global;
use std::process::Abort;
use wkt::error::Error;
use wkt::geo_traits::Dimensions;
use wkt::to_wkt::{
    CountedText, TextSink, WriterWrapper, push_geometry, write_geometry, write_geometry_collection,
    write_line, write_linestring, write_multi_linestring, write_multi_point, write_multi_polygon,
    write_point, write_polygon, write_rect, write_triangle,
};
use wkt_test_support::Slow;

fn spot(rt: &impl Abort, alloc: Global, x: i32, y: i32, others: &[i32]) -> Spot {
    let first: &[i32] = &[x, y];
    Spot {
        numbers: [first, others].concat(alloc).expect(rt, "memory"),
    }
}

fn dot(rt: &impl Abort, alloc: Global, header: Dimensions, others: &[i32]) -> Dot {
    Dot {
        header,
        spot: Some(spot(rt, alloc, 1, 2, others)),
    }
}

fn track(rt: &impl Abort, alloc: Global, header: Dimensions, places: &[(i32, i32)]) -> Track {
    let mut spots = Vec::new(alloc);
    for &(x, y) in places {
        spots.push(spot(rt, alloc, x, y, &[])).expect(rt, "memory");
    }
    Track { header, spots }
}

/// The corners (1 2), (3 4) and (5 6), each with the same further numbers.
fn corners(rt: &impl Abort, alloc: Global, header: Dimensions, others: &[i32]) -> Corners {
    Corners {
        header,
        one: spot(rt, alloc, 1, 2, others),
        two: spot(rt, alloc, 3, 4, others),
        three: spot(rt, alloc, 5, 6, others),
    }
}

/// A line of more numbers than its header says.
fn segment(rt: &impl Abort, alloc: Global) -> Segment {
    Segment {
        header: Dimensions::Unknown(4),
        from: spot(rt, alloc, 1, 2, &[7, 8, 9]),
        to: spot(rt, alloc, 3, 4, &[7, 8]),
    }
}

/// A polygon with one empty interior.
fn area(rt: &impl Abort, alloc: Global, exterior: Option<Track>) -> Area {
    let interior = track(rt, alloc, Dimensions::Xy, &[]);
    Area {
        header: Dimensions::Xy,
        exterior,
        interiors: vec![in alloc; interior].expect(rt, "memory"),
    }
}

fn ring(rt: &impl Abort, alloc: Global) -> Track {
    let places = [(0, 0), (1, 0), (0, 1), (0, 0)];
    track(rt, alloc, Dimensions::Xy, &places)
}

/// A point, and an empty one. The headers of members aren't looked at.
fn dots(rt: &impl Abort, alloc: Global) -> Dots {
    let header = Dimensions::Unknown(9);
    let one = dot(rt, alloc, header, &[]);
    let members = vec![in alloc; one, Dot { header, spot: None }];
    Dots {
        header: Dimensions::Xy,
        members: members.expect(rt, "memory"),
    }
}

/// A line string, and an empty one.
fn tracks(rt: &impl Abort, alloc: Global) -> Tracks {
    let one = track(rt, alloc, Dimensions::Unknown(9), &[(1, 2), (3, 4)]);
    let other = track(rt, alloc, Dimensions::Unknown(9), &[]);
    Tracks {
        header: Dimensions::Xy,
        members: vec![in alloc; one, other].expect(rt, "memory"),
    }
}

/// A polygon, one without exterior, and one with an empty exterior.
fn areas(rt: &impl Abort, alloc: Global) -> Areas {
    let one = area(rt, alloc, Some(ring(rt, alloc)));
    let other = area(rt, alloc, None);
    let last = area(rt, alloc, Some(track(rt, alloc, Dimensions::Xy, &[])));
    Areas {
        header: Dimensions::Xy,
        members: vec![in alloc; one, other, last].expect(rt, "memory"),
    }
}

fn add(rt: &impl Abort, figures: &mut Vec<Figure>, figure: Figure) {
    figures.push(figure).expect(rt, "memory");
}

/// A figure of each kind, the last of them a group of an empty group.
fn figures(rt: &impl Abort, alloc: Global) -> Vec<Figure> {
    let mut figures = Vec::new(alloc);
    push_parts(rt, alloc, &mut figures);
    push_lists(rt, alloc, &mut figures);
    push_others(rt, alloc, &mut figures);
    figures
}

fn push_parts(rt: &impl Abort, alloc: Global, figures: &mut Vec<Figure>) {
    let point = dot(rt, alloc, Dimensions::Xyz, &[3, 4]);
    add(rt, figures, Figure::Point(point));
    let line = track(rt, alloc, Dimensions::Xym, &[]);
    add(rt, figures, Figure::Line(line));
    let polygon = area(rt, alloc, Some(ring(rt, alloc)));
    add(rt, figures, Figure::Polygon(polygon));
}

fn push_lists(rt: &impl Abort, alloc: Global, figures: &mut Vec<Figure>) {
    add(rt, figures, Figure::Points(dots(rt, alloc)));
    add(rt, figures, Figure::Lines(tracks(rt, alloc)));
    add(rt, figures, Figure::Polygons(areas(rt, alloc)));
}

fn push_others(rt: &impl Abort, alloc: Global, figures: &mut Vec<Figure>) {
    let rect = corners(rt, alloc, Dimensions::Unknown(2), &[]);
    add(rt, figures, Figure::Rect(rect));
    let triangle = corners(rt, alloc, Dimensions::Xym, &[7]);
    add(rt, figures, Figure::Triangle(triangle));
    add(rt, figures, Figure::Segment(segment(rt, alloc)));
    let empty = Figure::Group(Dimensions::Xyzm, Vec::new(alloc));
    let inner = vec![in alloc; empty].expect(rt, "memory");
    add(rt, figures, Figure::Group(Dimensions::Unknown(3), inner));
}

const ALL: &str =
    "GEOMETRYCOLLECTION(POINT Z(1 2 3),LINESTRING M EMPTY,POLYGON((0 0,1 0,0 1,0 0),EMPTY),MULTIPOINT((1 2),EMPTY),MULTILINESTRING((1 2,3 4),EMPTY),MULTIPOLYGON(((0 0,1 0,0 1,0 0),EMPTY),EMPTY,EMPTY),POLYGON((3 2,3 4,1 4,1 2,3 2)),POLYGON M((1 2 7,3 4 7,5 6 7,1 2 7)),LINESTRING ZM(1 2 7 8,3 4 7 8),GEOMETRYCOLLECTION Z(GEOMETRYCOLLECTION ZM EMPTY))";

/// Writes a part of each kind.
fn write_parts<W: TextSink>(rt: &impl Abort, alloc: Global, sink: &mut W) {
    let point = dot(rt, alloc, Dimensions::Xym, &[3]);
    write_point(sink, &point).expect(rt, "written");
    let line = track(rt, alloc, Dimensions::Xy, &[(1, -2)]);
    write_linestring(sink, &line).expect(rt, "written");
    write_polygon(sink, &area(rt, alloc, None)).expect(rt, "written");
}

/// Writes a list of each kind.
fn write_lists<W: TextSink>(rt: &impl Abort, alloc: Global, sink: &mut W) {
    write_multi_point(sink, &dots(rt, alloc)).expect(rt, "written");
    write_multi_linestring(sink, &tracks(rt, alloc)).expect(rt, "written");
    write_multi_polygon(sink, &areas(rt, alloc)).expect(rt, "written");
}

/// Writes what is written as another kind.
fn write_others<W: TextSink>(rt: &impl Abort, alloc: Global, sink: &mut W) {
    let rect = corners(rt, alloc, Dimensions::Unknown(2), &[]);
    write_rect(sink, &rect).expect(rt, "written");
    let triangle = corners(rt, alloc, Dimensions::Xy, &[]);
    write_triangle(sink, &triangle).expect(rt, "written");
    write_line(sink, &segment(rt, alloc)).expect(rt, "written");
}

const EACH: &str =
    "POINT M(1 2 3)LINESTRING(1 -2)POLYGON EMPTYMULTIPOINT((1 2),EMPTY)MULTILINESTRING((1 2,3 4),EMPTY)MULTIPOLYGON(((0 0,1 0,0 1,0 0),EMPTY),EMPTY,EMPTY)POLYGON((3 2,3 4,1 4,1 2,3 2))POLYGON((1 2,3 4,5 6,1 2))LINESTRING ZM(1 2 7 8,3 4 7 8)";

#[test]
fn writes_each_kind(rt: HostRuntime) {
    let mut text = String::new(rt.alloc());
    let mut sink = CountedText::new(&mut text);
    write_parts(&rt, rt.alloc(), &mut sink);
    write_lists(&rt, rt.alloc(), &mut sink);
    write_others(&rt, rt.alloc(), &mut sink);
    sink.into_writer();
    equal(&rt, text.as_str(), EACH);
}

#[test]
fn writes_collections(rt: HostRuntime) {
    let header = Dimensions::Xy;
    let figures = figures(&rt, rt.alloc());
    let map = Map { header, figures };
    let mut text = String::new(rt.alloc());
    write_geometry_collection(&mut CountedText::new(&mut text), &map).expect(&rt, "written");
    equal(&rt, text.as_str(), ALL);
}

#[test]
fn writes_groups(rt: HostRuntime) {
    let group = Figure::Group(Dimensions::Xy, figures(&rt, rt.alloc()));
    let mut text = String::new(rt.alloc());
    push_geometry(&mut text, &group).expect(&rt, "written");
    equal(&rt, text.as_str(), ALL);
}

/// Why a figure isn't written; nothing of it is.
fn fault_of(rt: &impl Abort, alloc: Global, figure: &Figure) -> Error {
    let mut text = String::new(alloc);
    let answer = push_geometry(&mut text, figure);
    equal(rt, text.len(), 0);
    answer.expect_err(rt, "it is written")
}

#[test]
fn refuses_few_numbers(rt: HostRuntime) {
    let short = Figure::Point(dot(&rt, rt.alloc(), Dimensions::Xyzm, &[3]));
    let fault = fault_of(&rt, rt.alloc(), &short);
    holds(&rt, matches!(fault, Error::TooFewNumbers));
}

#[test]
fn refuses_an_unknown_dimension(rt: HostRuntime) {
    let (one, none): (&[(i32, i32)], &[(i32, i32)]) = (&[(1, 2)], &[]);
    for &spots in &[one, none] {
        let line = track(&rt, rt.alloc(), Dimensions::Unknown(5), spots);
        let fault = fault_of(&rt, rt.alloc(), &Figure::Line(line));
        holds(&rt, matches!(fault, Error::UnknownDimension));
    }
}

#[test]
fn refuses_a_rectangle_with_z(rt: HostRuntime) {
    let rect = corners(&rt, rt.alloc(), Dimensions::Xyz, &[7]);
    let fault = fault_of(&rt, rt.alloc(), &Figure::Rect(rect));
    holds(&rt, matches!(fault, Error::RectUnsupportedDimension));
}

#[test]
fn drops_spare_numbers(rt: HostRuntime) {
    let alloc = rt.alloc();
    let one = spot(&rt, alloc, 1, 2, &[3, 4, 5]);
    let line = Figure::Line(Track {
        header: Dimensions::Unknown(3),
        spots: vec![in alloc; one].expect(&rt, "memory"),
    });
    let mut text = String::from_str(alloc, "at: ").expect(&rt, "memory");
    push_geometry(&mut text, &line).expect(&rt, "written");
    equal(&rt, text.as_str(), "at: LINESTRING Z(1 2 3)");
}

/// A sink that fails at a byte that is put out before the end holds a beginning of the group, and failed once.
fn fails_at(rt: &impl Abort, group: &Figure, calls: usize) {
    let mut sink = Slow::new(1, calls);
    let answer = write_geometry(&mut WriterWrapper::new(&mut sink), group);
    holds(rt, matches!(answer, Err(Error::FmtError(_))));
    holds(rt, ALL.as_bytes().starts_with(sink.taken()));
    equal(rt, sink.taken().len(), calls);
    equal(rt, sink.failures, 1);
}

// The text is longer than the 256 bytes that are gathered.
#[test]
fn fails_with_the_sink(rt: HostRuntime) {
    let group = Figure::Group(Dimensions::Xy, figures(&rt, rt.alloc()));
    for calls in 0..256 {
        fails_at(&rt, &group, calls);
    }
}
