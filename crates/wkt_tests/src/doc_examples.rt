//! The examples of the doc comments that are no rows of `wkt_tables`, line for line, with what they give.
use crate::asserts::{equal, holds};
use std::alloc::Global;
use std::process::Abort;
use wkt::events::NoRoom;
use wkt::geo_types::{Coord, Rect};
use wkt::to_wkt::{Counted, push_geometry};
use wkt::{AnyError, Decimal, FromWktStr, ToWkt, Wkt, canonical_into, infer_type};

// Bytes to write into.
fn room(rt: &impl Abort, alloc: Global, size: usize) -> Vec<u8> {
    vec![in alloc; b'x'; size].expect(rt, "memory")
}

#[test]
fn writes_it_into_a_buffer(rt: HostRuntime) {
    let mut buffer = room(&rt, rt.alloc(), 111);
    let written = canonical_into::<Decimal<6>>("point (1.50 2) and more", buffer.as_mut_slice());
    let written = written.expect(&rt, "room").expect(&rt, "a front");
    equal(&rt, written.end, 14);
    buffer.truncate(written.len);
    equal(&rt, buffer.as_slice(), b"POINT(1.5 2)".as_slice());
}

#[test]
fn has_no_room_or_no_front(rt: HostRuntime) {
    let mut short = room(&rt, rt.alloc(), 110);
    let none = canonical_into::<Decimal<6>>("point (1.50 2) and more", short.as_mut_slice());
    holds(&rt, matches!(none, Err(NoRoom)));
    let refused = canonical_into::<Decimal<6>>("POINT(1)", short.as_mut_slice());
    holds(&rt, matches!(refused, Ok(None)));
}

const SQUARE: &str = "POLYGON((8 4,8 8,4 8,4 4,8 4))";

#[test]
fn writes(rt: HostRuntime) {
    let alloc = rt.alloc();
    let rect = Rect::<i32>::new(Coord { x: 4, y: 4 }, Coord { x: 8, y: 8 });
    equal(
        &rt,
        rect.wkt_string(alloc).expect(&rt, "written").as_str(),
        SQUARE,
    );
    let mut bytes = Counted::new(Vec::<u8>::new(alloc));
    rect.write_wkt(alloc, &mut bytes).expect(&rt, "written");
    equal(&rt, bytes.into_inner().as_slice(), SQUARE.as_bytes());
    let mut out = String::new(alloc);
    push_geometry(&mut out, &rect).expect(&rt, "written");
    equal(&rt, out.as_str(), SQUARE);
}

#[test]
fn each_error_under_one(rt: HostRuntime) {
    let mut out = String::new(rt.alloc());
    holds(
        &rt,
        pushed(rt.alloc(), &mut out).is_ok() && out.as_str() == "POINT(1 2)",
    );
}

// Each call with an error of its own under one `?`.
fn pushed(alloc: Global, out: &mut String) -> Result<(), AnyError> {
    let _ = infer_type(alloc, "POINT(1 2)")?;
    let rect = Rect::<i32>::new(Coord { x: 4, y: 4 }, Coord { x: 8, y: 8 });
    let mut bytes = Vec::new(alloc);
    bytes.push(1u8)?;
    rect.write_wkt(alloc, &mut Counted::new(&mut bytes))?;
    let wkt = Wkt::<i32>::from_str(alloc, "POINT(1 2)")?.try_clone(alloc)?;
    push_geometry(out, &wkt)?;
    Ok(())
}
