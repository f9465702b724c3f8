use crate::macros::{
    coord, dim, geometry_collection, line_string, multi_line_string, multi_point, multi_polygon,
    point, point_vec, polygon, wkt,
};
use crate::types::{
    Coord, Dimension, GeometryCollection, LineString, MultiLineString, MultiPoint, MultiPolygon,
    Point, Polygon,
};
use std::alloc::{AllocError, Global};
use std::fmt::{Debug, Display};
use std::process::Abort;
use std::test::Fail;

// The two are equal.
fn equal<G: PartialEq + Debug + Drop>(rt: &impl Abort, given: G, want: G) {
    assert_eq!(rt; given, want);
}

// That was made, and is displayed so.
fn shows<G: Display + Drop>(
    rt: &impl Abort,
    alloc: Global,
    made: Result<G, AllocError>,
    want: &str,
) -> Result<(), AllocError> {
    equal(rt, made?.to_string(alloc)?.as_str(), want);
    Ok(())
}

// That was made, and is equal to the other.
fn gives<G: PartialEq + Debug + Drop>(
    rt: &impl Abort,
    made: Result<G, AllocError>,
    want: G,
) -> Result<(), AllocError> {
    equal(rt, made?, want);
    Ok(())
}

#[test]
fn dimensions(rt: HostRuntime) {
    equal(&rt, dim!(Z), Dimension::XYZ);
    equal(&rt, dim!(M), Dimension::XYM);
    equal(&rt, dim!(ZM), Dimension::XYZM);
}

#[test]
fn empty_points(rt: HostRuntime) -> Result<(), Fail> {
    let alloc = rt.alloc();
    let of = |dim| Point::<i32>::empty(dim);
    gives(&rt, wkt!(alloc; POINT EMPTY), of(Dimension::XY))?;
    gives(&rt, wkt!(alloc; POINT Z EMPTY), of(Dimension::XYZ))?;
    gives(&rt, wkt!(alloc; POINT M EMPTY), of(Dimension::XYM))?;
    gives(&rt, wkt!(alloc; POINT ZM EMPTY), of(Dimension::XYZM))?;
    Ok(())
}

#[test]
fn empty_line_strings(rt: HostRuntime) -> Result<(), Fail> {
    let alloc = rt.alloc();
    let of = |dim| LineString::<i32>::empty(alloc, dim);
    gives(&rt, wkt!(alloc; LINESTRING EMPTY), of(Dimension::XY))?;
    gives(&rt, wkt!(alloc; LINESTRING Z EMPTY), of(Dimension::XYZ))?;
    gives(&rt, wkt!(alloc; LINESTRING M EMPTY), of(Dimension::XYM))?;
    gives(&rt, wkt!(alloc; LINESTRING ZM EMPTY), of(Dimension::XYZM))?;
    Ok(())
}

#[test]
fn empty_polygons(rt: HostRuntime) -> Result<(), Fail> {
    let alloc = rt.alloc();
    let of = |dim| Polygon::<i32>::empty(alloc, dim);
    gives(&rt, wkt!(alloc; POLYGON EMPTY), of(Dimension::XY))?;
    gives(&rt, wkt!(alloc; POLYGON Z EMPTY), of(Dimension::XYZ))?;
    gives(&rt, wkt!(alloc; POLYGON M EMPTY), of(Dimension::XYM))?;
    gives(&rt, wkt!(alloc; POLYGON ZM EMPTY), of(Dimension::XYZM))?;
    Ok(())
}

#[test]
fn empty_multi_points(rt: HostRuntime) -> Result<(), Fail> {
    let alloc = rt.alloc();
    let of = |dim| MultiPoint::<i32>::empty(alloc, dim);
    gives(&rt, wkt!(alloc; MULTIPOINT EMPTY), of(Dimension::XY))?;
    gives(&rt, wkt!(alloc; MULTIPOINT Z EMPTY), of(Dimension::XYZ))?;
    gives(&rt, wkt!(alloc; MULTIPOINT M EMPTY), of(Dimension::XYM))?;
    gives(&rt, wkt!(alloc; MULTIPOINT ZM EMPTY), of(Dimension::XYZM))?;
    Ok(())
}

#[test]
fn empty_multi_line_strings(rt: HostRuntime) -> Result<(), Fail> {
    let alloc = rt.alloc();
    let of = |dim| MultiLineString::<i32>::empty(alloc, dim);
    gives(&rt, wkt!(alloc; MULTILINESTRING EMPTY), of(Dimension::XY))?;
    gives(
        &rt,
        wkt!(alloc; MULTILINESTRING Z EMPTY),
        of(Dimension::XYZ),
    )?;
    gives(
        &rt,
        wkt!(alloc; MULTILINESTRING M EMPTY),
        of(Dimension::XYM),
    )?;
    gives(
        &rt,
        wkt!(alloc; MULTILINESTRING ZM EMPTY),
        of(Dimension::XYZM),
    )?;
    Ok(())
}

#[test]
fn empty_multi_polygons(rt: HostRuntime) -> Result<(), Fail> {
    let alloc = rt.alloc();
    let of = |dim| MultiPolygon::<i32>::empty(alloc, dim);
    gives(&rt, wkt!(alloc; MULTIPOLYGON EMPTY), of(Dimension::XY))?;
    gives(&rt, wkt!(alloc; MULTIPOLYGON Z EMPTY), of(Dimension::XYZ))?;
    gives(&rt, wkt!(alloc; MULTIPOLYGON M EMPTY), of(Dimension::XYM))?;
    gives(&rt, wkt!(alloc; MULTIPOLYGON ZM EMPTY), of(Dimension::XYZM))?;
    Ok(())
}

#[test]
fn empty_collections(rt: HostRuntime) -> Result<(), Fail> {
    let alloc = rt.alloc();
    let of = |dim| GeometryCollection::<i32>::empty(alloc, dim);
    gives(
        &rt,
        wkt!(alloc; GEOMETRYCOLLECTION EMPTY),
        of(Dimension::XY),
    )?;
    gives(
        &rt,
        wkt!(alloc; GEOMETRYCOLLECTION Z EMPTY),
        of(Dimension::XYZ),
    )?;
    gives(
        &rt,
        wkt!(alloc; GEOMETRYCOLLECTION M EMPTY),
        of(Dimension::XYM),
    )?;
    gives(
        &rt,
        wkt!(alloc; GEOMETRYCOLLECTION ZM EMPTY),
        of(Dimension::XYZM),
    )?;
    Ok(())
}

fn numbers(coord: Coord<i32>) -> (i32, i32, Option<i32>, Option<i32>) {
    (coord.x, coord.y, coord.z, coord.m)
}

#[test]
fn coordinates(rt: HostRuntime) {
    equal(&rt, numbers(coord!(1 2)), (1, 2, None, None));
    equal(&rt, numbers(coord!(Z 1 2 3)), (1, 2, Some(3), None));
    equal(&rt, numbers(coord!(M 1 2 3)), (1, 2, None, Some(3)));
    equal(&rt, numbers(coord!(ZM 1 2 3 4)), (1, 2, Some(3), Some(4)));
}

#[test]
fn points(rt: HostRuntime) -> Result<(), Fail> {
    let alloc = rt.alloc();
    shows::<Point<i32>>(&rt, alloc, wkt!(alloc; POINT (1 2)), "POINT(1 2)")?;
    shows::<Point<i32>>(&rt, alloc, Ok(point!(Z (1 2 3))), "POINT Z(1 2 3)")?;
    shows::<Point<i32>>(&rt, alloc, Ok(point!(M (1 2 3))), "POINT M(1 2 3)")?;
    shows::<Point<i32>>(
        &rt,
        alloc,
        wkt!(alloc; POINT ZM (1 2 3 4)),
        "POINT ZM(1 2 3 4)",
    )?;
    Ok(())
}

#[test]
fn line_strings(rt: HostRuntime) -> Result<(), Fail> {
    let alloc = rt.alloc();
    let line: LineString<i32> = wkt!(alloc; LINESTRING ZM (1 2 3 4, 3 4 5 6))?;
    equal(
        &rt,
        line.coords().first().copied(),
        Some(coord!(ZM 1 2 3 4)),
    );
    equal(&rt, line.coords().len(), 2);
    Ok(())
}

#[test]
fn line_strings_as_text(rt: HostRuntime) -> Result<(), Fail> {
    let alloc = rt.alloc();
    let line = line_string!(alloc; (1 2));
    shows::<LineString<i32>>(&rt, alloc, line, "LINESTRING(1 2)")?;
    let line = line_string!(alloc; Z (1 2 3, 4 5 6, 7 8 9));
    shows::<LineString<i32>>(&rt, alloc, line, "LINESTRING Z(1 2 3,4 5 6,7 8 9)")?;
    let line = line_string!(alloc; M (1 2 3, 4 5 6));
    shows::<LineString<i32>>(&rt, alloc, line, "LINESTRING M(1 2 3,4 5 6)")?;
    Ok(())
}

#[test]
fn polygons(rt: HostRuntime) -> Result<(), Fail> {
    let alloc = rt.alloc();
    let polygon: Polygon<i32> = wkt!(alloc; POLYGON((1 2), (3 4)))?;
    equal(&rt, polygon.rings().len(), 2);
    shows(&rt, alloc, Ok(polygon), "POLYGON((1 2),(3 4))")?;
    let polygon = polygon!(alloc; M ((1 2 3, 4 5 6), EMPTY));
    shows::<Polygon<i32>>(&rt, alloc, polygon, "POLYGON M((1 2 3,4 5 6),EMPTY)")?;
    Ok(())
}

#[test]
fn a_polygon_has_the_dimension_of_its_empty_exterior(rt: HostRuntime) -> Result<(), Fail> {
    let alloc = rt.alloc();
    let polygon: Polygon<i32> = polygon!(alloc; ZM (EMPTY, (1 2 3 4)))?;
    equal(&rt, polygon.rings().len(), 2);
    equal(&rt, polygon.dimension(), Dimension::XYZM);
    Ok(())
}

#[test]
fn multi_points(rt: HostRuntime) -> Result<(), Fail> {
    let alloc = rt.alloc();
    let points: MultiPoint<i32> = wkt!(alloc; MULTIPOINT Z (1 2 3, 4 5 6))?;
    equal(&rt, points.points().len(), 2);
    equal(&rt, points.dimension(), Dimension::XYZ);
    let points = point_vec!(alloc; M @points [] 1 2 3, EMPTY)?;
    equal(
        &rt,
        points.as_slice(),
        [point!(M (1 2 3)), Point::<i32>::empty(dim!(M))].as_slice(),
    );
    Ok(())
}

#[test]
fn multi_points_as_text(rt: HostRuntime) -> Result<(), Fail> {
    let alloc = rt.alloc();
    let points = wkt!(alloc; MULTIPOINT Z (EMPTY, 1 2 3));
    shows::<MultiPoint<i32>>(&rt, alloc, points, "MULTIPOINT Z(EMPTY,(1 2 3))")?;
    let points = multi_point!(alloc; (1 2, EMPTY, 3 4));
    shows::<MultiPoint<i32>>(&rt, alloc, points, "MULTIPOINT((1 2),EMPTY,(3 4))")?;
    let points = multi_point!(alloc; ZM (1 2 3 4, 5 6 7 8));
    shows::<MultiPoint<i32>>(&rt, alloc, points, "MULTIPOINT ZM((1 2 3 4),(5 6 7 8))")?;
    Ok(())
}

#[test]
fn multi_line_strings(rt: HostRuntime) -> Result<(), Fail> {
    let alloc = rt.alloc();
    let lines = wkt!(alloc; MULTILINESTRING ((8 4, 3 0), (4 0, 6 10)));
    shows::<MultiLineString<i32>>(&rt, alloc, lines, "MULTILINESTRING((8 4,3 0),(4 0,6 10))")?;
    let lines = multi_line_string!(alloc; Z (EMPTY, (1 2 3)));
    shows::<MultiLineString<i32>>(&rt, alloc, lines, "MULTILINESTRING Z(EMPTY,(1 2 3))")?;
    Ok(())
}

#[test]
fn multi_polygons(rt: HostRuntime) -> Result<(), Fail> {
    let alloc = rt.alloc();
    let polygons = wkt!(alloc; MULTIPOLYGON (((8 4)), ((4 0), (1 1))));
    shows::<MultiPolygon<i32>>(&rt, alloc, polygons, "MULTIPOLYGON(((8 4)),((4 0),(1 1)))")?;
    let polygons = multi_polygon!(alloc; M (EMPTY, ((1 2 3), EMPTY)));
    shows::<MultiPolygon<i32>>(
        &rt,
        alloc,
        polygons,
        "MULTIPOLYGON M(EMPTY,((1 2 3),EMPTY))",
    )?;
    Ok(())
}

type Collection = GeometryCollection<i32>;

#[test]
fn collections(rt: HostRuntime) -> Result<(), Fail> {
    let alloc = rt.alloc();
    let all =
        wkt!(alloc; GEOMETRYCOLLECTION(POINT(1 2),LINESTRING EMPTY,POLYGON((0 0,1 0,1 1,0 0))));
    let text = "GEOMETRYCOLLECTION(POINT(1 2),LINESTRING EMPTY,POLYGON((0 0,1 0,1 1,0 0)))";
    shows::<Collection>(&rt, alloc, all, text)?;
    Ok(())
}

#[test]
fn collections_with_a_dimension(rt: HostRuntime) -> Result<(), Fail> {
    let alloc = rt.alloc();
    let all =
        geometry_collection!(alloc; Z (MULTIPOINT Z (1 2 3), MULTILINESTRING Z ((1 2 3)), MULTIPOLYGON Z EMPTY));
    let text =
        "GEOMETRYCOLLECTION Z(MULTIPOINT Z((1 2 3)),MULTILINESTRING Z((1 2 3)),MULTIPOLYGON Z EMPTY)";
    shows::<Collection>(&rt, alloc, all, text)?;
    Ok(())
}

#[test]
fn nested_collections(rt: HostRuntime) -> Result<(), Fail> {
    let alloc = rt.alloc();
    let all = geometry_collection!(alloc; M (GEOMETRYCOLLECTION M (POINT M (1 2 3))));
    let text = "GEOMETRYCOLLECTION M(GEOMETRYCOLLECTION M(POINT M(1 2 3)))";
    shows::<Collection>(&rt, alloc, all, text)?;
    let all = geometry_collection!(alloc; ZM (POINT ZM EMPTY));
    shows::<Collection>(&rt, alloc, all, "GEOMETRYCOLLECTION ZM(POINT ZM EMPTY)")?;
    Ok(())
}
