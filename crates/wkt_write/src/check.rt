//! Looks for the first error in the order of the text: of the parts of all kinds, and of a geometry of any kind.
#![tactic(auto, using(crate::proofs::FirstErrors::clean_start, crate::proofs::FirstErrors::clean_more, crate::proofs::FirstErrors::clean_fault, crate::proofs::FirstErrors::clean_end))]

ghost use Rattle.std.specs.Prelude.{◌≡◌, ℕ, Some, None, Option, IfOk, IfErr};
ghost use Rattle.wkt_access.specs.Faults.{coordinate_fault, coordinates_fault, point_fault, polygon_fault, fault, under};
ghost use Rattle.wkt_write.specs.Pieces.{Checks, ChecksShape, KnownCoord, KnownCoords, KnownPoint, KnownPolygon};
ghost use Rattle.wkt_access.specs.Parts.{IsCollectionOf};
ghost use Rattle.wkt_access.specs.Shapes.{printed, dimension};
ghost use Rattle.wkt_access.specs.Values.{size};

use crate::items::{Coords, Interiors, check_items};
use crate::kinds::{
    Kind, Line, LineString, MultiLineString, MultiPoint, MultiPolygon, Point, Polygon, Rect,
    Triangle,
};
use wkt_access::{
    CoordTrait, Dimension, Dimensions, Error, GeometryTrait, GeometryType, LineStringTrait,
    PointTrait, PolygonTrait,
};
use wkt_num::WktNum;

/// The dimension that a header is printed with.
pub(crate) fn printed_dimension(d: Dimensions) -> Option<Dimension>
    ensures { result ≡ printed d }
{
    match d {
        Dimensions::Xy => Some(Dimension::XY),
        Dimensions::Xyz => Some(Dimension::XYZ),
        Dimensions::Xym => Some(Dimension::XYM),
        Dimensions::Xyzm => Some(Dimension::XYZM),
        Dimensions::Unknown(n) => {
            if n == 2 {
                Some(Dimension::XY)
            } else if n == 3 {
                Some(Dimension::XYZ)
            } else if n == 4 {
                Some(Dimension::XYZM)
            } else {
                None
            }
        }
    }
}

/// The dimension that a header is printed with; XY where there is none.
pub(crate) fn dimension_in(d: Dimensions) -> Dimension
    ensures { result ≡ dimension d }
{
    match printed_dimension(d) {
        None => Dimension::XY,
        Some(printed) => printed,
    }
}

/// How many numbers a coordinate has in that dimension.
pub(crate) fn size_in(d: Dimension) -> usize
    ensures { result ≡ size d }
{
    match d {
        Dimension::XY => 2,
        Dimension::XYZ => 3,
        Dimension::XYM => 3,
        Dimension::XYZM => 4,
    }
}

/// Whether a coordinate has `k` numbers or more.
pub(crate) fn check_coord<C: CoordTrait>(c: &C, k: usize) -> Result<(), Error>
    ensures { Checks result (coordinate_fault k (C.numbers c.now)) (KnownCoord C.T.is_value k (C.numbers c.now)) }
{
    if c.dim().size() < k {
        return Err(Error::TooFewNumbers);
    }
    for n in 0..k {
        c.nth(n).known();
    }
    Ok(())
}

/// The first error of the coordinates of a line string or a ring, under a header of `k` numbers.
pub(crate) fn check_coords<L: LineStringTrait>(l: &L, k: usize) -> Result<(), Error>
    ensures { Checks result (coordinates_fault k (L.coordinates l.now))
        (KnownCoords L.T.is_value k (L.coordinates l.now)) }
{
    check_items(&Coords(l), k)
}

/// The first error of the rings of a polygon that are written.
pub(crate) fn check_rings<Y: PolygonTrait>(y: &Y, k: usize) -> Result<(), Error>
    ensures { Checks result (polygon_fault k (Y.polygon y.now)) (KnownPolygon Y.T.is_value k (Y.polygon y.now)) }
{
    match y.exterior() {
        None => Ok(()),
        Some(exterior) => {
            if exterior.num_coords() == 0 {
                return Ok(());
            }
            check_coords(exterior, k)?;
            check_items(&Interiors(y), k)
        }
    }
}

/// The error of a point's coordinate, if there is one.
pub(crate) fn check_point_coord<P: PointTrait>(p: &P, k: usize) -> Result<(), Error>
    ensures { Checks result (point_fault k (P.coordinate p.now)) (KnownPoint P.T.is_value k (P.coordinate p.now)) }
{
    match p.coord() {
        None => Ok(()),
        Some(c) => check_coord(c, k),
    }
}

/// How many numbers a coordinate has under a header.
pub(crate) fn check_header(d: Dimensions) -> Result<usize, Error>
    ensures size { IfOk result (λ k. k ≡ size (dimension d)) }
    ensures ok { IfOk result (λ k. (inside : ℕ → Option Error) → under (printed d) inside ≡ inside k) }
    ensures err { IfErr result (λ e. (inside : ℕ → Option Error) → under (printed d) inside ≡ Some e) }
{
    match printed_dimension(d) {
        None => Err(Error::UnknownDimension),
        Some(printed) => Ok(size_in(printed)),
    }
}

/// The first error of a geometry of any kind.
#[cycle(geometries)]
pub(crate) fn check_geometry<G: GeometryTrait>(g: &G) -> Result<(), Error>
    ensures { ChecksShape G.T.is_value result (G.shape g.now) }
{
    match g.as_type() {
        GeometryType::Point(p) => Point(p).check(),
        GeometryType::LineString(l) => LineString(l).check(),
        GeometryType::Polygon(y) => Polygon(y).check(),
        GeometryType::MultiPoint(m) => MultiPoint(m).check(),
        GeometryType::MultiLineString(m) => MultiLineString(m).check(),
        GeometryType::MultiPolygon(m) => MultiPolygon(m).check(),
        GeometryType::GeometryCollection(n) => check_members(g, n),
        GeometryType::Rect(r) => Rect(r).check(),
        GeometryType::Triangle(y) => Triangle(y).check(),
        GeometryType::Line(l) => Line(l).check(),
    }
}

/// The first error of a geometry that is a collection of `count` members.
#[cycle(geometries)]
fn check_members<G: GeometryTrait>(g: &G, count: usize) -> Result<(), Error>
    requires { IsCollectionOf count (G.shape g.now) }
    ensures { ChecksShape G.T.is_value result (G.shape g.now) }
{
    check_header(g.dim())?;
    for i in 0..count {
        check_geometry(g.geometry(i))?;
    }
    Ok(())
}
