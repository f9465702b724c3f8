//! The two-dimensional types: flat values from readers that are slow or fail.
//! `wkt_test_support` has what needs no reading.
use crate::asserts::{equal, holds};
use std::alloc::Global;
use std::io::ErrorKind;
use std::process::Abort;
use wkt::geo_types::{Geometry, GeometryCollection, Line, LineString, Point};
use wkt::geo_types_from_wkt::Error;
use wkt::{Decimal, TryFromWkt};
use wkt_test_support::{Pieces, source};

type Number = Decimal<6>;

#[test]
fn reads_one_byte_a_call(rt: HostRuntime) {
    let mut reader = source(b"POINT(10 20)", 1, 100);
    let Ok(point) = Point::<Number>::try_from_wkt_reader(rt.alloc(), &mut reader) else {
        panic!(rt; "a point wasn't read");
    };
    equal(&rt, point.x().units(), 10_000_000);
    equal(&rt, point.y().units(), 20_000_000);
    equal(&rt, reader.rest.len(), 0);
}

/// What follows the front is read too, and isn't looked at.
#[test]
fn reads_past_the_front(rt: HostRuntime) {
    let mut reader = source(b"LINESTRING(1 2,3 4)x(", 3, 100);
    let answer = LineString::<i32>::try_from_wkt_reader(rt.alloc(), &mut reader);
    equal(&rt, answer.expect(&rt, "a line string").0.len(), 2);
    equal(&rt, reader.rest.len(), 0);
}

#[test]
fn reader_fails(rt: HostRuntime) {
    let mut reader = source(b"POINT(10 20)", 1, 2);
    match Point::<Number>::try_from_wkt_reader(rt.alloc(), &mut reader) {
        Err(Error::Reader(e)) => holds(&rt, e.kind() == ErrorKind::Interrupted),
        _ => panic!(rt; "a reader that failed was answered otherwise"),
    }
    equal(&rt, reader.failures, 1);
}

fn is_no_geometry(alloc: Global, mut reader: Pieces<'_>) -> bool {
    let answer = Geometry::<Number>::try_from_wkt_reader(alloc, &mut reader);
    matches!(answer, Err(Error::Utf8))
}

fn is_no_point(alloc: Global, mut reader: Pieces<'_>) -> bool {
    let answer = Point::<Number>::try_from_wkt_reader(alloc, &mut reader);
    matches!(answer, Err(Error::Utf8))
}

/// Bytes are no text, however many of them come at once.
fn are_no_text(rt: &impl Abort, alloc: Global, bytes: &[u8]) {
    holds(rt, is_no_geometry(alloc, source(bytes, 1, 100)));
    holds(rt, is_no_point(alloc, source(bytes, 1, 100)));
    holds(rt, is_no_geometry(alloc, source(bytes, 1000, 100)));
    holds(rt, is_no_point(alloc, source(bytes, 1000, 100)));
}

#[test]
fn bytes_that_are_no_text(rt: HostRuntime) {
    are_no_text(&rt, rt.alloc(), b"POINT (1 2)\xc2");
    are_no_text(&rt, rt.alloc(), b"\xc2");
    are_no_text(&rt, rt.alloc(), b"LINESTRING(\xff");
}

#[test]
fn a_point_is_no_line(rt: HostRuntime) {
    let mut reader = source(b"POINT (1 2)", 4, 100);
    match Line::<Number>::try_from_wkt_reader(rt.alloc(), &mut reader) {
        Err(Error::MismatchedGeometry { expected, found }) => {
            equal(&rt, (expected, found), ("Line", "Point"));
        }
        _ => panic!(rt; "a point became a line"),
    }
}

#[test]
fn nothing_is_no_collection(rt: HostRuntime) {
    let mut reader = source(b"", 4, 100);
    match GeometryCollection::<Number>::try_from_wkt_reader(rt.alloc(), &mut reader) {
        Err(Error::InvalidWKT(message)) => equal(&rt, message, "Invalid WKT format"),
        _ => panic!(rt; "nothing was read as a collection"),
    }
}
