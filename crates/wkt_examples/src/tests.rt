//! What the examples return.
use crate::flat_from_reader::copy_polygon;
use crate::key::key;
use crate::my_builder::has_empty;
use crate::my_number::Half;
use crate::refusal::{Answer, answer_to};
use std::alloc::{AllocError, Global};
use std::fmt::{Debug, Display};
use std::process::Abort;
use std::test::Fail;
use wkt::geo_types::{Coord, Line};
use wkt::{Decimal, FromWktStr, Wkt};
use wkt_test_support::{Slow, source};

/// The two are equal: what tests assert, as a function. It is proved once, where a macro is at each place that it stands at.
pub(crate) fn equal<T: PartialEq + Debug + Drop>(rt: &impl Abort, given: T, want: T) {
    assert_eq!(rt; given, want);
}

/// It is true.
pub(crate) fn holds(rt: &impl Abort, fact: bool) {
    assert!(rt; fact);
}

/// Copying this text ends well or not, and that is out.
fn copies(rt: &impl Abort, alloc: Global, text: &[u8], (well, want): (bool, &[u8])) {
    let mut sink = Slow::new(100, 100);
    let answer = copy_polygon::<i32, _, _>(alloc, &mut source(text, 7, 100), &mut sink);
    equal(rt, answer.is_ok(), well);
    equal(rt, sink.taken(), want);
}

#[test]
fn polygons_are_copied(rt: HostRuntime) {
    let (text, want) = (
        b"POLYGON Z ((0 0 1, 4 0 2, 2 4 3))",
        b"POLYGON((0 0,4 0,2 4,0 0))",
    );
    copies(&rt, rt.alloc(), text, (true, want));
    copies(&rt, rt.alloc(), b"POINT (1 2)", (false, b""));
}

#[test]
fn keys(rt: HostRuntime) {
    let line = Line {
        start: Coord { x: 3u8, y: 4 },
        end: Coord { x: 5, y: 6 },
    };
    let text = key(rt.alloc(), &line).expect(&rt, "memory");
    equal(&rt, text.as_str(), "LINESTRING(3 4,5 6)");
}

/// The caller, the text that it is given, and what it gives. Numbers have six places, but for `halves`, whose numbers are 0,
/// .5 and 1. `answer_to` gives the canonical text, or the bytes of the lexeme that is too much and what was expected there,
/// and `has_empty` whether a part of the front is EMPTY.
const ROWS: &str = "\
halves | linestring (0 .5, 1 +1) | LINESTRING(0 .5,1 1)
halves | POINT (0 0.5) | Unable to parse input number as the desired output type
answer_to | point ( 1 2.50 ) | POINT(1 2.5)
answer_to | linestring (1 2.50) | LINESTRING(1 2.5)
answer_to | POINT(1) | 7..8 Y
has_empty | POINT ZM EMPTY | true
has_empty | MULTIPOINT(1 2,EMPTY) | true
has_empty | GEOMETRYCOLLECTION(POINT(1 2),MULTIPOLYGON(((0 0,4 0,2 4,0 0),EMPTY))) | true
has_empty | MULTIPOINT(1 2,(3 4)) EMPTY | false
has_empty | MULTIPOINT(EMPTY,1 2 | none
";

/// Memory that runs out is an error, which `tests/gate/each_growth.sh` tries at each allocation.
#[test]
fn rows(rt: HostRuntime) -> Result<(), Fail> {
    for row in ROWS.lines() {
        is_given(&rt, rt.alloc(), row)?;
    }
    Ok(())
}

fn is_given(rt: &impl Abort, alloc: Global, row: &str) -> Result<(), AllocError> {
    let (call, rest) = row.split_once(" | ").expect(rt, row);
    let (text, want) = rest.split_once(" | ").expect(rt, row);
    let given = given(alloc, call, text)?;
    equal(rt, (row, given.as_str()), (row, want));
    Ok(())
}

/// What the caller of that name gives of a text.
fn given(alloc: Global, call: &str, text: &str) -> Result<String, AllocError> {
    match call {
        "halves" => words(alloc, Wkt::<Half>::from_str(alloc, text)),
        "answer_to" => answered(alloc, text),
        "has_empty" => empty_or_none(alloc, text),
        _ => String::from_str(alloc, "no such caller"),
    }
}

/// What was made, or the words of the error; out of memory is an error by itself.
fn words<G: Display + Drop, E: Display + Drop>(
    alloc: Global,
    made: Result<G, E>,
) -> Result<String, AllocError> {
    let words = match made {
        Ok(made) => made.to_string(alloc)?,
        Err(error) => error.to_string(alloc)?,
    };
    // No text of a geometry, and no other error, is this.
    if words.as_str() == "out of memory" {
        return Err(AllocError);
    }
    Ok(words)
}

fn empty_or_none(alloc: Global, text: &str) -> Result<String, AllocError> {
    match has_empty::<Decimal<6>>(text) {
        Some(found) => found.to_string(alloc),
        None => String::from_str(alloc, "none"),
    }
}

/// The canonical text, or where the text is refused and what could come next.
fn answered(alloc: Global, text: &str) -> Result<String, AllocError> {
    match answer_to::<Decimal<6>>(alloc, text)? {
        Answer::Text(text) => Ok(text),
        Answer::Refused(start, end, expected) => {
            format!(in alloc; "{start}..{end} {expected:?}")
        }
    }
}
