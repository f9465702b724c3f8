//! Access to geometries of any kind. One that is no collection has no members: asked for one, it returns itself.
ghost use Rattle.std.specs.Prelude.{◌≡◌};
ghost use Rattle.wkt_access.specs.declared.dimensions.Dimensions.TheVariants.{Xy};
ghost use Rattle.wkt_flat.specs.Shape.{flat_shape};
ghost use Rattle.wkt_flat.specs.Tree.{flat_tree, point, line, line_string, polygon, multi_point, multi_line_string, multi_polygon, rect, triangle};

use crate::geometry::Geometry;
use crate::line::Line;
use crate::lists::{LineString, MultiLineString, MultiPoint, MultiPolygon};
use crate::point::Point;
use crate::polygon::Polygon;
use crate::rect::Rect;
use crate::triangle::Triangle;
use wkt_access::{Dimensions, GeometryTrait, GeometryType};
use wkt_num::WktNum;

/// The kind of a flat geometry, with the geometry.
type FlatType<'a, T> = GeometryType<
    'a,
    Point<T>,
    LineString<T>,
    Polygon<T>,
    MultiPoint<T>,
    MultiLineString<T>,
    MultiPolygon<T>,
    Rect<T>,
    Triangle<T>,
    Line<T>,
>;

impl<T: WktNum> GeometryTrait for Geometry<T> {
    type T = T;

    type PointType = Point<T>;

    type LineStringType = LineString<T>;

    type PolygonType = Polygon<T>;

    type MultiPointType = MultiPoint<T>;

    type MultiLineStringType = MultiLineString<T>;

    type MultiPolygonType = MultiPolygon<T>;

    type RectType = Rect<T>;

    type TriangleType = Triangle<T>;

    type LineType = Line<T>;

    ghost shape = { λ g. flat_shape (flat_tree g) };

    fn dim(&self) -> Dimensions {
        Dimensions::Xy
    }

    fn as_type(&self) -> FlatType<'_, T> {
        match self {
            Geometry::Point(p) => GeometryType::Point(p),
            Geometry::Line(l) => GeometryType::Line(l),
            Geometry::LineString(l) => GeometryType::LineString(l),
            Geometry::Polygon(y) => GeometryType::Polygon(y),
            Geometry::MultiPoint(m) => GeometryType::MultiPoint(m),
            Geometry::MultiLineString(m) => GeometryType::MultiLineString(m),
            Geometry::MultiPolygon(m) => GeometryType::MultiPolygon(m),
            Geometry::Rect(r) => GeometryType::Rect(r),
            Geometry::Triangle(t) => GeometryType::Triangle(t),
            Geometry::GeometryCollection(c) => GeometryType::GeometryCollection(
                c.geometries().len(),
            ),
        }
    }

    #[tactic(auto, using(crate::proofs::TreeLemmas::collection_members, crate::proofs::TreeLemmas::members_length, crate::proofs::TreeLemmas::member_got))]
    fn geometry(&self, i: usize) -> &Self {
        match self {
            Geometry::GeometryCollection(c) => &c.geometries()[i],
            _ => self,
        }
    }
}

impl<T: WktNum> GeometryTrait for Point<T> {
    type T = T;

    type PointType = Point<T>;

    type LineStringType = LineString<T>;

    type PolygonType = Polygon<T>;

    type MultiPointType = MultiPoint<T>;

    type MultiLineStringType = MultiLineString<T>;

    type MultiPolygonType = MultiPolygon<T>;

    type RectType = Rect<T>;

    type TriangleType = Triangle<T>;

    type LineType = Line<T>;

    ghost shape = { λ x. flat_shape (point x) };

    fn dim(&self) -> Dimensions {
        Dimensions::Xy
    }

    fn as_type(&self) -> FlatType<'_, T> {
        GeometryType::Point(self)
    }

    fn geometry(&self, _i: usize) -> &Self
        ensures { result.now ≡ self.now }
    {
        self
    }
}

impl<T: WktNum> GeometryTrait for Line<T> {
    type T = T;

    type PointType = Point<T>;

    type LineStringType = LineString<T>;

    type PolygonType = Polygon<T>;

    type MultiPointType = MultiPoint<T>;

    type MultiLineStringType = MultiLineString<T>;

    type MultiPolygonType = MultiPolygon<T>;

    type RectType = Rect<T>;

    type TriangleType = Triangle<T>;

    type LineType = Line<T>;

    ghost shape = { λ x. flat_shape (line x) };

    fn dim(&self) -> Dimensions {
        Dimensions::Xy
    }

    fn as_type(&self) -> FlatType<'_, T> {
        GeometryType::Line(self)
    }

    fn geometry(&self, _i: usize) -> &Self
        ensures { result.now ≡ self.now }
    {
        self
    }
}

impl<T: WktNum> GeometryTrait for LineString<T> {
    type T = T;

    type PointType = Point<T>;

    type LineStringType = LineString<T>;

    type PolygonType = Polygon<T>;

    type MultiPointType = MultiPoint<T>;

    type MultiLineStringType = MultiLineString<T>;

    type MultiPolygonType = MultiPolygon<T>;

    type RectType = Rect<T>;

    type TriangleType = Triangle<T>;

    type LineType = Line<T>;

    ghost shape = { λ x. flat_shape (line_string x) };

    fn dim(&self) -> Dimensions {
        Dimensions::Xy
    }

    fn as_type(&self) -> FlatType<'_, T> {
        GeometryType::LineString(self)
    }

    fn geometry(&self, _i: usize) -> &Self
        ensures { result.now ≡ self.now }
    {
        self
    }
}

impl<T: WktNum> GeometryTrait for Polygon<T> {
    type T = T;

    type PointType = Point<T>;

    type LineStringType = LineString<T>;

    type PolygonType = Polygon<T>;

    type MultiPointType = MultiPoint<T>;

    type MultiLineStringType = MultiLineString<T>;

    type MultiPolygonType = MultiPolygon<T>;

    type RectType = Rect<T>;

    type TriangleType = Triangle<T>;

    type LineType = Line<T>;

    ghost shape = { λ x. flat_shape (polygon x) };

    fn dim(&self) -> Dimensions {
        Dimensions::Xy
    }

    fn as_type(&self) -> FlatType<'_, T> {
        GeometryType::Polygon(self)
    }

    fn geometry(&self, _i: usize) -> &Self
        ensures { result.now ≡ self.now }
    {
        self
    }
}

impl<T: WktNum> GeometryTrait for MultiPoint<T> {
    type T = T;

    type PointType = Point<T>;

    type LineStringType = LineString<T>;

    type PolygonType = Polygon<T>;

    type MultiPointType = MultiPoint<T>;

    type MultiLineStringType = MultiLineString<T>;

    type MultiPolygonType = MultiPolygon<T>;

    type RectType = Rect<T>;

    type TriangleType = Triangle<T>;

    type LineType = Line<T>;

    ghost shape = { λ x. flat_shape (multi_point x) };

    fn dim(&self) -> Dimensions {
        Dimensions::Xy
    }

    fn as_type(&self) -> FlatType<'_, T> {
        GeometryType::MultiPoint(self)
    }

    fn geometry(&self, _i: usize) -> &Self
        ensures { result.now ≡ self.now }
    {
        self
    }
}

impl<T: WktNum> GeometryTrait for MultiLineString<T> {
    type T = T;

    type PointType = Point<T>;

    type LineStringType = LineString<T>;

    type PolygonType = Polygon<T>;

    type MultiPointType = MultiPoint<T>;

    type MultiLineStringType = MultiLineString<T>;

    type MultiPolygonType = MultiPolygon<T>;

    type RectType = Rect<T>;

    type TriangleType = Triangle<T>;

    type LineType = Line<T>;

    ghost shape = { λ x. flat_shape (multi_line_string x) };

    fn dim(&self) -> Dimensions {
        Dimensions::Xy
    }

    fn as_type(&self) -> FlatType<'_, T> {
        GeometryType::MultiLineString(self)
    }

    fn geometry(&self, _i: usize) -> &Self
        ensures { result.now ≡ self.now }
    {
        self
    }
}

impl<T: WktNum> GeometryTrait for MultiPolygon<T> {
    type T = T;

    type PointType = Point<T>;

    type LineStringType = LineString<T>;

    type PolygonType = Polygon<T>;

    type MultiPointType = MultiPoint<T>;

    type MultiLineStringType = MultiLineString<T>;

    type MultiPolygonType = MultiPolygon<T>;

    type RectType = Rect<T>;

    type TriangleType = Triangle<T>;

    type LineType = Line<T>;

    ghost shape = { λ x. flat_shape (multi_polygon x) };

    fn dim(&self) -> Dimensions {
        Dimensions::Xy
    }

    fn as_type(&self) -> FlatType<'_, T> {
        GeometryType::MultiPolygon(self)
    }

    fn geometry(&self, _i: usize) -> &Self
        ensures { result.now ≡ self.now }
    {
        self
    }
}

impl<T: WktNum> GeometryTrait for Rect<T> {
    type T = T;

    type PointType = Point<T>;

    type LineStringType = LineString<T>;

    type PolygonType = Polygon<T>;

    type MultiPointType = MultiPoint<T>;

    type MultiLineStringType = MultiLineString<T>;

    type MultiPolygonType = MultiPolygon<T>;

    type RectType = Rect<T>;

    type TriangleType = Triangle<T>;

    type LineType = Line<T>;

    ghost shape = { λ x. flat_shape (rect x) };

    fn dim(&self) -> Dimensions {
        Dimensions::Xy
    }

    fn as_type(&self) -> FlatType<'_, T> {
        GeometryType::Rect(self)
    }

    fn geometry(&self, _i: usize) -> &Self
        ensures { result.now ≡ self.now }
    {
        self
    }
}

impl<T: WktNum> GeometryTrait for Triangle<T> {
    type T = T;

    type PointType = Point<T>;

    type LineStringType = LineString<T>;

    type PolygonType = Polygon<T>;

    type MultiPointType = MultiPoint<T>;

    type MultiLineStringType = MultiLineString<T>;

    type MultiPolygonType = MultiPolygon<T>;

    type RectType = Rect<T>;

    type TriangleType = Triangle<T>;

    type LineType = Line<T>;

    ghost shape = { λ x. flat_shape (triangle x) };

    fn dim(&self) -> Dimensions {
        Dimensions::Xy
    }

    fn as_type(&self) -> FlatType<'_, T> {
        GeometryType::Triangle(self)
    }

    fn geometry(&self, _i: usize) -> &Self
        ensures { result.now ≡ self.now }
    {
        self
    }
}
