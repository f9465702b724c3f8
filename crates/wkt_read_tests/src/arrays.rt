//! Text to arrays, and arrays to the events that fill them again.

use std::process::Abort;
use wkt_fill::{ArrayBuilder, Given, Room, are_arrays, fill_arrays, tell};
use wkt_num::Places;
use wkt_types::GeometryType::{GeometryCollection, LineString, MultiPoint, MultiPolygon, Point};
use wkt_types::{Dimension, GeometryType};

/// Fills arrays from a text, and from the events of these arrays again.
fn again(rt: &impl Abort, text: &str) {
    let places = Places::new(6);
    let mut numbers = [0i64; 64];
    let mut rings = [0usize; 16];
    let mut polygons = [0usize; 16];
    let room = Room {
        numbers: &mut numbers,
        rings: &mut rings,
        polygons: &mut polygons,
    };
    let Some(filled) = fill_arrays(places, text.as_bytes(), room) else {
        panic!(rt; "no front");
    };
    assert_eq!(rt; filled.end, text.len());
    assert_eq!(rt; filled.arrays.status, 0);
    let given = Given {
        kind: filled.arrays.kind,
        dimension: filled.arrays.dimension,
        numbers: filled.arrays.numbers(),
        rings: filled.arrays.rings(),
        polygons: filled.arrays.polygons(),
    };
    assert!(rt; are_arrays(given));
    let mut more_numbers = [0i64; 64];
    let mut more_rings = [0usize; 16];
    let mut more_polygons = [0usize; 16];
    let more = Room {
        numbers: &mut more_numbers,
        rings: &mut more_rings,
        polygons: &mut more_polygons,
    };
    let told = tell::<ArrayBuilder<'_>>(given, ArrayBuilder::new(places, more));
    assert_eq!(rt; told.status, 0);
    assert!(rt; told.kind == given.kind && told.dimension == given.dimension);
    assert!(rt; told.numbers() == given.numbers);
    assert!(rt; told.rings() == given.rings);
    assert!(rt; told.polygons() == given.polygons);
}

#[test]
fn each_kind_is_filled_from_its_own_events(rt: HostRuntime) {
    again(&rt, "POINT(1 2)");
    again(&rt, "POINT ZM EMPTY");
    again(&rt, "linestring z (1 2 3, 4 5.50 6)");
    again(&rt, "LINESTRING EMPTY");
    again(&rt, "POLYGON((1 2,3 4),EMPTY,(5 6,7 8,9 10))");
    again(&rt, "POLYGON EMPTY");
    again(&rt, "MULTIPOINT M(1 2 3,EMPTY,(4 5 6))");
    again(&rt, "MULTILINESTRING((1 2,3 4),EMPTY)");
    again(&rt, "MULTIPOLYGON ZM(((1 2 3 4)),EMPTY,((5 6 7 8),EMPTY))");
    again(&rt, "MULTIPOLYGON EMPTY");
}

/// Whether those are the arrays of a geometry.
fn are(kind: GeometryType, numbers: &[i64], rings: &[usize], polygons: &[usize]) -> bool {
    are_arrays(Given {
        kind,
        dimension: Dimension::XY,
        numbers,
        rings,
        polygons,
    })
}

#[test]
fn arrays_of_no_geometry_are_refused(rt: HostRuntime) {
    assert!(&rt; are(Point, &[1, 2], &[0, 1], &[0, 1]));
    assert!(&rt; are(MultiPolygon, &[], &[0], &[0]));
    let given = [
        // A number less or more than the offsets say.
        are(Point, &[1], &[0, 1], &[0, 1]),
        are(LineString, &[1, 2, 3, 4], &[0, 1], &[0, 1]),
        are(LineString, &[1, 2], &[0, 2], &[0, 1]),
        // Offsets that are none, begin late, go back or end early.
        are(MultiPolygon, &[], &[], &[0]),
        are(MultiPolygon, &[], &[0], &[]),
        are(LineString, &[1, 2], &[1, 1], &[0, 1]),
        are(MultiPolygon, &[1, 2], &[0, 2, 1], &[0, 2]),
        are(MultiPolygon, &[1, 2], &[0, 1, 1], &[0, 1]),
        // A point of two coordinates, a line string of two rings, one of no polygon, and a collection.
        are(Point, &[1, 2, 3, 4], &[0, 2], &[0, 1]),
        are(MultiPoint, &[1, 2, 3, 4], &[0, 2], &[0, 1]),
        are(LineString, &[1, 2, 3, 4], &[0, 1, 2], &[0, 2]),
        are(LineString, &[], &[0], &[0]),
        are(GeometryCollection, &[], &[0], &[0]),
    ];
    assert_eq!(&rt; given, [false; 13]);
}
