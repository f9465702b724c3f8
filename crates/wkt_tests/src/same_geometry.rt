//! Geometries that are one, in whatever way they are put together.
use crate::asserts::{equal, holds};
use std::alloc::Global;
use std::process::Abort;
use wkt::types::{Coord, Dimension, GeometryCollection, LineString};
use wkt::{FromWktStr, Wkt, same_geometry};

/// z, m and the header's dimension.
type Numbers = (Option<i32>, Option<i32>, Dimension);

/// A line string of one coordinate, with x 1 and y 2.
fn line(rt: &impl Abort, alloc: Global, (z, m, dim): Numbers) -> Wkt<i32> {
    let coord = Coord { x: 1, y: 2, z, m };
    Wkt::from(LineString::new(vec![in alloc; coord].expect(rt, "memory"), dim))
}

// The numbers of one line string and of another, and whether they are one: what is written is the first numbers that are
// there, as many as the header has. The last three can't both be written.
const SPARE: &[(Numbers, Numbers, bool)] = &[
    (
        (Some(3), Some(4), Dimension::XYM),
        (None, Some(3), Dimension::XYM),
        true,
    ),
    (
        (Some(3), Some(4), Dimension::XYM),
        (Some(3), None, Dimension::XYM),
        true,
    ),
    (
        (Some(3), Some(4), Dimension::XYM),
        (None, Some(4), Dimension::XYM),
        false,
    ),
    (
        (Some(3), Some(4), Dimension::XYM),
        (Some(3), Some(4), Dimension::XYZM),
        false,
    ),
    (
        (None, None, Dimension::XY),
        (Some(3), Some(4), Dimension::XY),
        true,
    ),
    (
        (None, None, Dimension::XYZ),
        (None, None, Dimension::XYZ),
        true,
    ),
    (
        (None, None, Dimension::XYZ),
        (Some(3), None, Dimension::XYZ),
        false,
    ),
    (
        (Some(3), None, Dimension::XYZM),
        (Some(3), Some(4), Dimension::XYZM),
        false,
    ),
];

/// Two geometries are one or aren't, by the call that compares, and by what each is made canonical to.
fn are_one(rt: &impl Abort, one: Wkt<i32>, other: Wkt<i32>, want: bool) {
    equal(rt, same_geometry(&one, &other), want);
    equal(rt, one.into_canonical() == other.into_canonical(), want);
}

#[test]
fn spare_numbers(rt: HostRuntime) {
    let alloc = rt.alloc();
    for &(one, other, same) in SPARE {
        are_one(&rt, line(&rt, alloc, one), line(&rt, alloc, other), same);
    }
}

/// A geometry in so many collections.
fn nested(rt: &impl Abort, alloc: Global, text: &str, depth: u32) -> Wkt<i32> {
    let mut all = Wkt::<i32>::from_str(alloc, text).expect(rt, "read");
    for _ in 0..depth {
        let members = vec![in alloc; all].expect(rt, "memory");
        all = Wkt::from(GeometryCollection::new(members, Dimension::XY));
    }
    all
}

/// A polygon without exterior, in so many collections, and the empty polygon in 300 are one or aren't.
fn is_nested_empty(rt: &impl Abort, alloc: Global, depth: u32, want: bool) {
    let one = nested(rt, alloc, "POLYGON(EMPTY)", depth);
    are_one(rt, one, nested(rt, alloc, "POLYGON EMPTY", 300), want);
}

#[test]
fn nested_collections(rt: HostRuntime) {
    is_nested_empty(&rt, rt.alloc(), 300, true);
    is_nested_empty(&rt, rt.alloc(), 301, false);
}

#[test]
fn a_nested_collection_is_made_canonical(rt: HostRuntime) {
    let one = nested(&rt, rt.alloc(), "POLYGON(EMPTY)", 300).into_canonical();
    holds(&rt, one == nested(&rt, rt.alloc(), "POLYGON EMPTY", 300));
}
