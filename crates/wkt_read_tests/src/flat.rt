//! Flat values that are read from a text, beside those that a `Wkt` of it is converted to.
use std::alloc::{AllocError, Global};
use std::process::Abort;
use wkt_convert::FromAny;
use wkt_flat::{
    Geometry, GeometryCollection, Line, LineString, MultiLineString, MultiPoint, MultiPolygon,
    Point, Polygon, Rect, Triangle,
};
use wkt_flat_read::read_text;
use wkt_read::ReadError;
use wkt_types::{ConvertError, Wkt};
use wkt_values::FromWktStr;

/// The error of a reading, as that of a conversion.
fn unread(error: ReadError) -> ConvertError {
    match error {
        ReadError::Text(message) => ConvertError::InvalidWKT(message),
        ReadError::Memory(error) => ConvertError::Memory(error),
    }
}

/// What the text is read as straight.
fn straight<G: FromAny<T = i32>>(alloc: Global, text: &str) -> Result<G, ConvertError> {
    match read_text::<i32>(alloc, text) {
        Ok(flattened) => G::from_flattened(flattened),
        Err(error) => Err(unread(error)),
    }
}

/// What a `Wkt` of it is converted to.
fn converted<G: FromAny<T = i32>>(alloc: Global, text: &str) -> Result<G, ConvertError> {
    match Wkt::<i32>::from_str(alloc, text) {
        Ok(wkt) => G::from_any(alloc, &wkt),
        Err(error) => Err(unread(error)),
    }
}

/// Both are the same.
fn is_same<G: FromAny<T = i32> + PartialEq + Drop>(
    rt: &impl Abort,
    alloc: Global,
    text: &str,
) -> Result<(), AllocError> {
    match straight::<G>(alloc, text) {
        Err(ConvertError::Memory(error)) => Err(error),
        Ok(given) => match converted::<G>(alloc, text) {
            Err(ConvertError::Memory(error)) => Err(error),
            Ok(want) => {
                assert!(rt; given == want, "{text}");
                Ok(())
            }
            Err(_) => panic!(rt; "{text} is read"),
        },
        Err(given) => match converted::<G>(alloc, text) {
            Err(ConvertError::Memory(error)) => Err(error),
            Ok(_) => panic!(rt; "{text} is refused"),
            Err(want) => {
                let (given, want) = (format!(in alloc; "{given}")?, format!(in alloc; "{want}")?);
                assert!(rt; given == want, "{text}: {given}");
                Ok(())
            }
        },
    }
}

/// Each of the eleven types answers the same of the text of each line.
fn are_same(rt: &impl Abort, alloc: Global, texts: &str) -> Result<(), AllocError> {
    for text in texts.lines() {
        is_same::<Geometry<i32>>(rt, alloc, text)?;
        is_same::<GeometryCollection<i32>>(rt, alloc, text)?;
        is_same::<Point<i32>>(rt, alloc, text)?;
        is_same::<Line<i32>>(rt, alloc, text)?;
        is_same::<LineString<i32>>(rt, alloc, text)?;
        is_same::<Polygon<i32>>(rt, alloc, text)?;
        is_same::<MultiPoint<i32>>(rt, alloc, text)?;
        is_same::<MultiLineString<i32>>(rt, alloc, text)?;
        is_same::<MultiPolygon<i32>>(rt, alloc, text)?;
        is_same::<Rect<i32>>(rt, alloc, text)?;
        is_same::<Triangle<i32>>(rt, alloc, text)?;
    }
    Ok(())
}

#[test]
fn each_kind(rt: HostRuntime) -> Result<(), AllocError> {
    let texts = "\
POINT(1 2)
POINT Z(1 2 3)
point m ( -1 2 3 )
POINTZM(1 2 3 4)
LINESTRING(1 2,3 4,1 2)
LINESTRING ZM(1 2 3 4,5 6 7 8)
POLYGON((8 4,4 0,0 4,8 4),(7 3,4 1,1 4,7 3))
POLYGON M((8 4 1,4 0 2,0 4 3),(1 2 3),(7 3 4,4 1 5))
MULTIPOINT(8 4,(4 0))
MULTIPOINT Z((8 4 1),4 0 2)
MULTILINESTRING((1 2,3 4),(5 6))
MULTIPOLYGON(((8 4,4 0,0 4),(1 1)),((3 4,5 6,3 4)))
GEOMETRYCOLLECTION Z(POINT(1 2),LINESTRING M(1 2 3),POLYGON((1 2,3 4)),MULTIPOINT(1 2))
GEOMETRYCOLLECTION(MULTILINESTRING((1 2)),GEOMETRYCOLLECTION(MULTIPOLYGON(((1 2,3 4)))),POINT(5 6))";
    are_same(&rt, rt.alloc(), texts)
}

#[test]
fn parts_without_items(rt: HostRuntime) -> Result<(), AllocError> {
    let texts = "\
POINT EMPTY
LINESTRING Z EMPTY
POLYGON EMPTY
POLYGON(EMPTY,(1 2,3 4),EMPTY)
MULTIPOINT EMPTY
MULTIPOINT(EMPTY)
MULTIPOINT(1 2,EMPTY,3 4)
MULTILINESTRING(EMPTY,(1 2))
MULTIPOLYGON(EMPTY,((1 2),EMPTY))
MULTIPOLYGON EMPTY
GEOMETRYCOLLECTION EMPTY
GEOMETRYCOLLECTION(POINT EMPTY,GEOMETRYCOLLECTION EMPTY,POINT(1 2))
GEOMETRYCOLLECTION(GEOMETRYCOLLECTION(MULTIPOINT(EMPTY)),LINESTRING(1 2))
GEOMETRYCOLLECTION(MULTIPOINT EMPTY,MULTIPOINT(1 2))";
    are_same(&rt, rt.alloc(), texts)
}

#[test]
fn refused_texts(rt: HostRuntime) -> Result<(), AllocError> {
    let texts = "\
POINT(1)

POINT Z(1 2)
POINT M(1 2 x)
POINT Z(1 2 2147483648)
LINESTRING(1 2,3 4
MULTIPOINT(EMPTY
MULTIPOINT(EMPTY,(1 2)
GEOMETRYCOLLECTION(MULTIPOINT(EMPTY),POINT(1))
GEOMETRYCOLLECTION(POINT(1 2),CIRCLE(1))
POINT(1 2) and more";
    are_same(&rt, rt.alloc(), texts)
}
