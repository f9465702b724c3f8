//! A custom type that has `to_wkt` alone: its text comes by the default bodies of `ToWkt`.
use crate::asserts::{equal, holds};
use std::alloc::{AllocError, Global};
use std::io::ErrorKind;
use std::process::Abort;
use wkt_access::Error;
use wkt_convert::{ToWkt, ToWktError};
use wkt_test_support::Slow;
use wkt_types::{Coord, Dimension, GeometryCollection, Point, Wkt};
use wkt_values::FromWktStr;

/// A drawing, which has a geometry for others.
#[derive(Drop)]
struct Drawing {
    shown: Wkt<i32>,
}

impl ToWkt<i32> for Drawing {
    ghost use Rattle.wkt_types.specs.Tree.{tree};

    ghost held = { λ d. tree d.shown };

    fn to_wkt(&self, alloc: Global) -> Result<Wkt<i32>, AllocError> {
        self.shown.try_clone(alloc)
    }
}

/// The drawing of this text.
fn drawing_of(rt: &impl Abort, alloc: Global, text: &str) -> Drawing {
    let shown = Wkt::<i32>::from_str(alloc, text).expect(rt, "read");
    Drawing { shown }
}

/// A point of x and y under another header.
fn short(dimension: Dimension) -> Wkt<i32> {
    let coord = Coord {
        x: 1,
        y: 2,
        z: None,
        m: None,
    };
    Wkt::Point(Point::new(Some(coord), dimension))
}

/// Both calls give that text of a drawing.
fn is_written(rt: &impl Abort, alloc: Global, drawing: &Drawing, want: &str) {
    equal(
        rt,
        drawing.wkt_string(alloc).expect(rt, "written").as_str(),
        want,
    );
    let mut writer = Slow::new(5, 100);
    drawing.write_wkt(alloc, &mut writer).expect(rt, "written");
    equal(rt, writer.taken(), want.as_bytes());
}

const WRITTEN: &[(&str, &str)] = &[
    ("point z (1 2 3)", "POINT Z(1 2 3)"),
    ("LINESTRING ZM EMPTY", "LINESTRING ZM EMPTY"),
    (
        "GEOMETRYCOLLECTION(POLYGON((0 0,1 0,0 1)), MULTIPOINT(1 2, EMPTY))",
        "GEOMETRYCOLLECTION(POLYGON((0 0,1 0,0 1)),MULTIPOINT((1 2),EMPTY))",
    ),
];

#[test]
fn writes(rt: HostRuntime) {
    for &(text, want) in WRITTEN {
        is_written(&rt, rt.alloc(), &drawing_of(&rt, rt.alloc(), text), want);
    }
}

/// Whether the shape has too few numbers.
fn has_few(answer: Result<(), ToWktError>) -> bool {
    matches!(answer, Err(ToWktError::Shape(Error::TooFewNumbers)))
}

/// Whether both calls return the error of the shape, also where the sink fails, and nothing goes out.
fn is_refused(alloc: Global, drawing: &Drawing) -> bool {
    let mut writer = Slow::new(5, 100);
    let mut broken = Slow::new(5, 0);
    let is_no_string = matches!(drawing.wkt_string(alloc), Err(Error::TooFewNumbers));
    let is_not_written = has_few(drawing.write_wkt(alloc, &mut writer));
    let is_not_begun = has_few(drawing.write_wkt(alloc, &mut broken));
    let is_untouched = writer.calls == 100 && broken.failures == 0;
    is_no_string && is_not_written && is_not_begun && is_untouched
}

/// A point and another under that header.
fn with_short(rt: &impl Abort, alloc: Global, dimension: Dimension) -> Wkt<i32> {
    let members = vec![in alloc; short(Dimension::XY), short(dimension)].expect(rt, "memory");
    Wkt::GeometryCollection(GeometryCollection::new(members, Dimension::XY))
}

/// A short point is refused, and so is a collection that has one.
fn refuses_short(rt: &impl Abort, alloc: Global, dimension: Dimension) {
    let shown = short(dimension);
    holds(rt, is_refused(alloc, &Drawing { shown }));
    let shown = with_short(rt, alloc, dimension);
    holds(rt, is_refused(alloc, &Drawing { shown }));
}

#[test]
fn refuses(rt: HostRuntime) {
    refuses_short(&rt, rt.alloc(), Dimension::XYZ);
    refuses_short(&rt, rt.alloc(), Dimension::XYM);
    refuses_short(&rt, rt.alloc(), Dimension::XYZM);
    let shown = short(Dimension::XY);
    holds(&rt, !is_refused(rt.alloc(), &Drawing { shown }));
}

/// The writer fails so, once it has taken that.
fn fails(rt: &impl Abort, alloc: Global, drawing: &Drawing, writer: &mut Slow, want: ErrorKind) {
    match drawing.write_wkt(alloc, writer) {
        Err(ToWktError::Io(error)) => equal(rt, error.kind(), want),
        _ => panic!(rt; "it doesn't fail with its writer"),
    }
}

#[test]
fn fails_with_the_sink(rt: HostRuntime) {
    let text = "POINT Z(1 2 3)";
    let drawing = drawing_of(&rt, rt.alloc(), text);
    for calls in 0..text.len() {
        let mut writer = Slow::new(1, calls);
        fails(
            &rt,
            rt.alloc(),
            &drawing,
            &mut writer,
            ErrorKind::BrokenPipe,
        );
        equal(&rt, writer.taken(), &text.as_bytes()[..calls]);
        equal(&rt, writer.failures, 1);
    }
    let mut writer = Slow::full(1, 4);
    fails(&rt, rt.alloc(), &drawing, &mut writer, ErrorKind::WriteZero);
    equal(&rt, writer.taken(), b"POIN".as_slice());
}
