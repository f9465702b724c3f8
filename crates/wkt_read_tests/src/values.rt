//! Values that are read, beside the same made by hand.
use std::alloc::{AllocError, Global};
use std::process::Abort;
use wkt_read::{PeekableTokens, ReadError, Tokens};
use wkt_sources::TokenSource;
use wkt_types::{
    Coord, Dimension, GeometryCollection, LineString, MultiLineString, MultiPoint, MultiPolygon,
    Point, Polygon, Wkt,
};
use wkt_values::text::read_text;
use wkt_values::{Unread, read};

type Made = Result<Wkt<i32>, AllocError>;

/// What the text is read as by its tokens; nothing where it is refused.
fn value(alloc: Global, text: &str) -> Result<Option<Wkt<i32>>, AllocError> {
    let mut tokens = PeekableTokens::<i32>::new(Tokens::from_str(text));
    match read::<i32, TokenSource<'_, '_, i32>>(alloc, TokenSource::new(&mut tokens)).0 {
        Ok(value) => Ok(Some(value)),
        Err(Unread::Refused(_)) => Ok(None),
        Err(Unread::Memory(error)) => Err(error),
    }
}

/// What it is read as by its bytes.
fn value_by_bytes(alloc: Global, text: &str) -> Result<Option<Wkt<i32>>, AllocError> {
    match read_text::<i32>(alloc, text) {
        Ok((value, _)) => Ok(Some(value)),
        Err(ReadError::Text(_)) => Ok(None),
        Err(ReadError::Memory(error)) => Err(error),
    }
}

/// The text is read as that.
fn is_read(rt: &impl Abort, alloc: Global, text: &str, want: Made) -> Result<(), AllocError> {
    let want = want?;
    let given = value(alloc, text)?;
    let by_bytes = value_by_bytes(alloc, text)?;
    assert!(rt; by_bytes == given, "{text}, by bytes");
    assert!(rt; given == Some(want), "{text}");
    Ok(())
}

fn coord(x: i32, y: i32, z: Option<i32>, m: Option<i32>) -> Coord<i32> {
    Coord { x, y, z, m }
}

fn xy(x: i32, y: i32) -> Coord<i32> {
    coord(x, y, None, None)
}

fn line(
    alloc: Global,
    coords: &[Coord<i32>],
    dim: Dimension,
) -> Result<LineString<i32>, AllocError> {
    let mut all = Vec::new(alloc);
    for coord in coords {
        all.push(*coord)?;
    }
    Ok(LineString::new(all, dim))
}

fn lines(
    alloc: Global,
    parts: &[&[Coord<i32>]],
    dim: Dimension,
) -> Result<Vec<LineString<i32>>, AllocError> {
    let mut all = Vec::new(alloc);
    for coords in parts {
        all.push(line(alloc, coords, dim)?)?;
    }
    Ok(all)
}

fn points(alloc: Global, coords: &[Option<Coord<i32>>], dim: Dimension) -> Made {
    let mut all = Vec::new(alloc);
    for coord in coords {
        all.push(Point::new(*coord, dim))?;
    }
    Ok(Wkt::from(MultiPoint::new(all, dim)))
}

fn point(coord: Option<Coord<i32>>, dim: Dimension) -> Wkt<i32> {
    Wkt::from(Point::new(coord, dim))
}

fn line_string(alloc: Global, coords: &[Coord<i32>], dim: Dimension) -> Made {
    Ok(Wkt::from(line(alloc, coords, dim)?))
}

fn polygon(alloc: Global, rings: &[&[Coord<i32>]], dim: Dimension) -> Made {
    Ok(Wkt::from(Polygon::new(lines(alloc, rings, dim)?, dim)))
}

fn multi_line_string(alloc: Global, parts: &[&[Coord<i32>]], dim: Dimension) -> Made {
    Ok(Wkt::from(MultiLineString::new(lines(alloc, parts, dim)?, dim)))
}

fn area(alloc: Global, rings: &[&[Coord<i32>]]) -> Result<Polygon<i32>, AllocError> {
    Ok(Polygon::new(lines(alloc, rings, Dimension::XY)?, Dimension::XY))
}

fn multi_polygon(alloc: Global, first: Polygon<i32>, second: Polygon<i32>) -> Made {
    let mut all = Vec::new(alloc);
    all.push(first)?;
    all.push(second)?;
    Ok(Wkt::from(MultiPolygon::new(all, Dimension::XY)))
}

fn collection(first: Made, second: Made, alloc: Global, dim: Dimension) -> Made {
    let mut all = Vec::new(alloc);
    all.push(first?)?;
    all.push(second?)?;
    Ok(Wkt::from(GeometryCollection::new(all, dim)))
}

fn no_members(alloc: Global, dim: Dimension) -> Wkt<i32> {
    Wkt::from(GeometryCollection::empty(alloc, dim))
}

#[test]
fn line_strings(rt: HostRuntime) -> Result<(), AllocError> {
    let alloc = rt.alloc();
    let flat = line_string(alloc, &[xy(1, 2), xy(-3, 4), xy(1, 2)], Dimension::XY);
    is_read(&rt, alloc, "LINESTRING(1 2,-3 4,1 2)", flat)?;
    let measured = line_string(alloc, &[coord(1, 2, None, Some(3))], Dimension::XYM);
    is_read(&rt, alloc, "LINESTRING M(1 2 3)", measured)?;
    let none = line_string(alloc, &[], Dimension::XYZ);
    is_read(&rt, alloc, "LINESTRING Z EMPTY", none)
}

#[test]
fn polygons(rt: HostRuntime) -> Result<(), AllocError> {
    let alloc = rt.alloc();
    let outer: &[Coord<i32>] = &[xy(0, 0), xy(4, 0), xy(0, 4), xy(0, 0)];
    let inner: &[Coord<i32>] = &[xy(1, 1)];
    let both = polygon(alloc, &[outer, &[], inner], Dimension::XY);
    is_read(&rt, alloc, "POLYGON((0 0,4 0,0 4,0 0),EMPTY,(1 1))", both)?;
    let none = polygon(alloc, &[], Dimension::XYZM);
    is_read(&rt, alloc, "POLYGON ZM EMPTY", none)
}

#[test]
fn multi_points(rt: HostRuntime) -> Result<(), AllocError> {
    let alloc = rt.alloc();
    let three = points(
        alloc,
        &[Some(xy(1, 2)), None, Some(xy(5, 6))],
        Dimension::XY,
    );
    is_read(&rt, alloc, "MULTIPOINT(1 2,EMPTY,(5 6))", three)?;
    let high = [Some(coord(1, 2, Some(3), None)), None];
    is_read(
        &rt,
        alloc,
        "MULTIPOINT Z((1 2 3),EMPTY)",
        points(alloc, &high, Dimension::XYZ),
    )?;
    is_read(
        &rt,
        alloc,
        "MULTIPOINT EMPTY",
        points(alloc, &[], Dimension::XY),
    )
}

#[test]
fn multi_line_strings(rt: HostRuntime) -> Result<(), AllocError> {
    let alloc = rt.alloc();
    let two: &[Coord<i32>] = &[xy(1, 2), xy(3, 4)];
    let one: &[Coord<i32>] = &[xy(5, 6)];
    let three = multi_line_string(alloc, &[two, &[], one], Dimension::XY);
    is_read(&rt, alloc, "MULTILINESTRING((1 2,3 4),EMPTY,(5 6))", three)?;
    let none = multi_line_string(alloc, &[], Dimension::XYM);
    is_read(&rt, alloc, "MULTILINESTRING M EMPTY", none)
}

#[test]
fn multi_polygons(rt: HostRuntime) -> Result<(), AllocError> {
    let alloc = rt.alloc();
    let ring: &[Coord<i32>] = &[xy(0, 0), xy(1, 0), xy(0, 1), xy(0, 0)];
    let hole: &[Coord<i32>] = &[xy(2, 2)];
    let first = area(alloc, &[ring, hole])?;
    let text = "MULTIPOLYGON(((0 0,1 0,0 1,0 0),(2 2)),EMPTY)";
    is_read(
        &rt,
        alloc,
        text,
        multi_polygon(alloc, first, area(alloc, &[])?),
    )?;
    let second = area(alloc, &[&[], ring])?;
    let text = "MULTIPOLYGON(EMPTY,(EMPTY,(0 0,1 0,0 1,0 0)))";
    is_read(
        &rt,
        alloc,
        text,
        multi_polygon(alloc, area(alloc, &[])?, second),
    )
}

#[test]
fn no_polygons(rt: HostRuntime) -> Result<(), AllocError> {
    let alloc = rt.alloc();
    let none = Wkt::from(MultiPolygon::new(Vec::new(alloc), Dimension::XYM));
    is_read(&rt, alloc, "MULTIPOLYGON M EMPTY", Ok(none))
}

// A member's numbers aren't those of the one before it, and each member has its own dimension.
#[test]
fn collections(rt: HostRuntime) -> Result<(), AllocError> {
    let alloc = rt.alloc();
    let high = point(Some(coord(1, 2, Some(3), None)), Dimension::XYZ);
    let flat = point(Some(xy(4, 5)), Dimension::XY);
    let two = collection(Ok(high), Ok(flat), alloc, Dimension::XYM);
    is_read(
        &rt,
        alloc,
        "GEOMETRYCOLLECTION M(POINT Z(1 2 3),POINT(4 5))",
        two,
    )?;
    let line = line_string(alloc, &[xy(1, 2), xy(3, 4)], Dimension::XY);
    let none = Ok(no_members(alloc, Dimension::XYZ));
    let mixed = collection(none, line, alloc, Dimension::XY);
    let text = "GEOMETRYCOLLECTION(GEOMETRYCOLLECTION Z EMPTY,LINESTRING(1 2,3 4))";
    is_read(&rt, alloc, text, mixed)?;
    is_read(
        &rt,
        alloc,
        "geometrycollection empty",
        Ok(no_members(alloc, Dimension::XY)),
    )
}

#[test]
fn nested_collections(rt: HostRuntime) -> Result<(), AllocError> {
    let alloc = rt.alloc();
    let text =
        "GEOMETRYCOLLECTION(GEOMETRYCOLLECTION(POINT EMPTY,POINT(1 2)),GEOMETRYCOLLECTION(MULTIPOINT(1 2),GEOMETRYCOLLECTION EMPTY))";
    let none = Ok(point(None, Dimension::XY));
    let one = Ok(point(Some(xy(1, 2)), Dimension::XY));
    let remaining = collection(none, one, alloc, Dimension::XY);
    let several = points(alloc, &[Some(xy(1, 2))], Dimension::XY);
    let right = collection(
        several,
        Ok(no_members(alloc, Dimension::XY)),
        alloc,
        Dimension::XY,
    );
    is_read(
        &rt,
        alloc,
        text,
        collection(remaining, right, alloc, Dimension::XY),
    )
}
