//! The two passes of a writer, by kind: the first looks for an error, and the second writes a shape without one.
//!
//! A writer is one function over [`Kind`].
#![tactic(auto, using(crate::proofs::FirstErrors::none_at))]

ghost use Rattle.std.specs.Prelude.{◌≡◌, None};
ghost use Rattle.wkt_access.specs.Faults.{fault};
ghost use Rattle.wkt_access.specs.Parts.{collection_of};
ghost use Rattle.wkt_access.specs.Shapes.{Shape};
ghost use Rattle.wkt_access.specs.Texts.{shape_text};
ghost use Rattle.wkt_num.specs.Sink.{Puts};
ghost use Rattle.wkt_write.specs.Pieces.{ChecksShape, KnownRectCorner};

use crate::check::{
    check_coord, check_geometry, check_header, check_point_coord, check_rings, dimension_in,
    printed_dimension, size_in,
};
use crate::items::{Coords, LineStrings, Members, Points, Polygons, check_listed, put_listed};
use crate::put_geometries::put_geometry;
use crate::put_parts::{
    has_no_coord, has_no_rings, put_header, put_line_body, put_point_body, put_polygon_body,
    put_rect_ring, put_triangle_body,
};
use std::fmt;
use wkt_access::{
    CoordTrait, Dimension, Error, GeometryCollectionTrait, GeometryTrait, LineStringTrait,
    LineTrait, MultiLineStringTrait, MultiPointTrait, MultiPolygonTrait, PointTrait, PolygonTrait,
    RectTrait, TriangleTrait,
};
use wkt_num::{TextSink, WktNum};

/// A geometry of one kind, as its writer sees it.
pub(crate) trait Kind {
    /// The type of its numbers.
    type T: WktNum;

    /// Its shape.
    ghost shape: { Self → Shape Self.T };

    /// Looks for the first error.
    fn check(&self) -> Result<(), Error>
        ensures { ChecksShape Self.T.is_value result (shape self.now) };

    /// Writes the text.
    fn put<W: TextSink>(&self, f: &mut W) -> fmt::Result
        requires { fault (shape self.now) ≡ None }
        ensures { Puts W.sink f.old (shape_text Self.T.num (shape self.now)) f.new result };
}

/// A geometry of any kind.
#[derive(Drop)]
pub(crate) struct AnyGeometry<'a, G>(pub(crate) &'a G);

impl<G: GeometryTrait> Kind for AnyGeometry<'_, G> {
    type T = G::T;

    ghost shape = { λ x. G.shape x.0.now };

    fn check(&self) -> Result<(), Error> {
        check_geometry(self.0)
    }

    fn put<W: TextSink>(&self, f: &mut W) -> fmt::Result {
        put_geometry(f, self.0)
    }
}

/// A point.
#[derive(Drop)]
pub(crate) struct Point<'a, P>(pub(crate) &'a P);

impl<P: PointTrait> Kind for Point<'_, P> {
    type T = P::T;

    ghost shape = { λ x. Shape.point (P.dimension x.0.now) (P.coordinate x.0.now) };

    fn check(&self) -> Result<(), Error> {
        let k = check_header(self.0.dim())?;
        check_point_coord(self.0, k)
    }

    fn put<W: TextSink>(&self, f: &mut W) -> fmt::Result {
        let d = dimension_in(self.0.dim());
        put_header(f, "POINT", d, has_no_coord(self.0))?;
        put_point_body(f, self.0, size_in(d))
    }
}

/// A line string.
#[derive(Drop)]
pub(crate) struct LineString<'a, L>(pub(crate) &'a L);

impl<L: LineStringTrait> Kind for LineString<'_, L> {
    type T = L::T;

    ghost shape = { λ x. Shape.line_string (L.dimension x.0.now) (L.coordinates x.0.now) };

    #[inline(never)]
    fn check(&self) -> Result<(), Error> {
        check_listed(self.0.dim(), &Coords(self.0))
    }

    #[inline(never)]
    #[tactic(auto, using(crate::proofs::FirstErrors::none_at, crate::proofs::Bracketed::line_string_text))]
    fn put<W: TextSink>(&self, f: &mut W) -> fmt::Result {
        put_listed(f, "LINESTRING", self.0.dim(), &Coords(self.0))
    }
}

/// A polygon.
#[derive(Drop)]
pub(crate) struct Polygon<'a, Y>(pub(crate) &'a Y);

impl<Y: PolygonTrait> Kind for Polygon<'_, Y> {
    type T = Y::T;

    ghost shape = { λ x. Shape.polygon (Y.dimension x.0.now) (Y.polygon x.0.now) };

    #[inline(never)]
    fn check(&self) -> Result<(), Error> {
        let k = check_header(self.0.dim())?;
        check_rings(self.0, k)
    }

    #[inline(never)]
    fn put<W: TextSink>(&self, f: &mut W) -> fmt::Result {
        let d = dimension_in(self.0.dim());
        put_header(f, "POLYGON", d, has_no_rings(self.0))?;
        put_polygon_body(f, self.0, size_in(d))
    }
}

/// A list of points.
#[derive(Drop)]
pub(crate) struct MultiPoint<'a, M>(pub(crate) &'a M);

impl<M: MultiPointTrait> Kind for MultiPoint<'_, M> {
    type T = M::T;

    ghost shape = { λ x. Shape.multi_point (M.dimension x.0.now) (M.points x.0.now) };

    #[inline(never)]
    fn check(&self) -> Result<(), Error> {
        check_listed(self.0.dim(), &Points(self.0))
    }

    #[inline(never)]
    fn put<W: TextSink>(&self, f: &mut W) -> fmt::Result {
        put_listed(f, "MULTIPOINT", self.0.dim(), &Points(self.0))
    }
}

/// A list of line strings.
#[derive(Drop)]
pub(crate) struct MultiLineString<'a, M>(pub(crate) &'a M);

impl<M: MultiLineStringTrait> Kind for MultiLineString<'_, M> {
    type T = M::T;

    ghost shape = { λ x. Shape.multi_line_string (M.dimension x.0.now) (M.line_strings x.0.now) };

    #[inline(never)]
    fn check(&self) -> Result<(), Error> {
        check_listed(self.0.dim(), &LineStrings(self.0))
    }

    #[inline(never)]
    fn put<W: TextSink>(&self, f: &mut W) -> fmt::Result {
        put_listed(f, "MULTILINESTRING", self.0.dim(), &LineStrings(self.0))
    }
}

/// A list of polygons.
#[derive(Drop)]
pub(crate) struct MultiPolygon<'a, M>(pub(crate) &'a M);

impl<M: MultiPolygonTrait> Kind for MultiPolygon<'_, M> {
    type T = M::T;

    ghost shape = { λ x. Shape.multi_polygon (M.dimension x.0.now) (M.polygons x.0.now) };

    #[inline(never)]
    fn check(&self) -> Result<(), Error> {
        check_listed(self.0.dim(), &Polygons(self.0))
    }

    #[inline(never)]
    #[tactic(auto, using(crate::proofs::FirstErrors::none_at, crate::proofs::Bracketed::multi_polygon_text))]
    fn put<W: TextSink>(&self, f: &mut W) -> fmt::Result {
        put_listed(f, "MULTIPOLYGON", self.0.dim(), &Polygons(self.0))
    }
}

/// A collection.
#[derive(Drop)]
pub(crate) struct Collection<'a, C>(pub(crate) &'a C);

impl<C: GeometryCollectionTrait> Kind for Collection<'_, C> {
    type T = C::T;

    ghost shape = { λ x. collection_of (C.dimension x.0.now) (C.geometries x.0.now) };

    fn check(&self) -> Result<(), Error> {
        check_listed(self.0.dim(), &Members(self.0))
    }

    fn put<W: TextSink>(&self, f: &mut W) -> fmt::Result {
        put_listed(f, "GEOMETRYCOLLECTION", self.0.dim(), &Members(self.0))
    }
}

/// Does nothing. Its contract says that a corner's x and y are values.
fn know_rect_corner<C: CoordTrait>(c: &C)
    ensures { KnownRectCorner C.T.is_value (C.numbers c.now) }
{
    c.dim();
    c.x().known();
    c.y().known();
}

/// A rectangle.
#[derive(Drop)]
pub(crate) struct Rect<'a, R>(pub(crate) &'a R);

impl<R: RectTrait> Kind for Rect<'_, R> {
    type T = R::T;

    ghost shape = { λ x. Shape.rect (R.dimension x.0.now) (R.min_corner x.0.now) (R.max_corner x.0.now) };

    #[inline(never)]
    fn check(&self) -> Result<(), Error> {
        know_rect_corner(self.0.min());
        know_rect_corner(self.0.max());
        match printed_dimension(self.0.dim()) {
            Some(Dimension::XY) => Ok(()),
            _ => Err(Error::RectUnsupportedDimension),
        }
    }

    #[inline(never)]
    fn put<W: TextSink>(&self, f: &mut W) -> fmt::Result {
        let min = self.0.min();
        let max = self.0.max();
        f.write_str("POLYGON((")?;
        put_rect_ring(f, min, max)?;
        f.write_str("))")
    }
}

/// A triangle.
#[derive(Drop)]
pub(crate) struct Triangle<'a, Y>(pub(crate) &'a Y);

impl<Y: TriangleTrait> Kind for Triangle<'_, Y> {
    type T = Y::T;

    ghost shape = { λ x. Shape.triangle (Y.dimension x.0.now)
        (Y.first_corner x.0.now) (Y.second_corner x.0.now) (Y.third_corner x.0.now) };

    #[inline(never)]
    fn check(&self) -> Result<(), Error> {
        let k = check_header(self.0.dim())?;
        check_coord(self.0.first(), k)?;
        check_coord(self.0.second(), k)?;
        check_coord(self.0.third(), k)
    }

    #[inline(never)]
    fn put<W: TextSink>(&self, f: &mut W) -> fmt::Result {
        let d = dimension_in(self.0.dim());
        put_header(f, "POLYGON", d, false)?;
        put_triangle_body(f, self.0, size_in(d))
    }
}

/// A line.
#[derive(Drop)]
pub(crate) struct Line<'a, L>(pub(crate) &'a L);

impl<L: LineTrait> Kind for Line<'_, L> {
    type T = L::T;

    ghost shape = { λ x. Shape.line (L.dimension x.0.now) (L.from x.0.now) (L.to x.0.now) };

    #[inline(never)]
    fn check(&self) -> Result<(), Error> {
        let k = check_header(self.0.dim())?;
        check_coord(self.0.start(), k)?;
        check_coord(self.0.end(), k)
    }

    #[inline(never)]
    fn put<W: TextSink>(&self, f: &mut W) -> fmt::Result {
        let d = dimension_in(self.0.dim());
        put_header(f, "LINESTRING", d, false)?;
        put_line_body(f, self.0, size_in(d))
    }
}
