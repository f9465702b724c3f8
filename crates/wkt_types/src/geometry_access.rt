//! Access to geometries of any kind. One that is no collection has no members: asked for one, it returns itself.
ghost use Rattle.std.specs.Prelude.{◌≡◌};
ghost use Rattle.wkt_types.specs.Tree.{tree, point, line_string, polygon, multi_point, multi_line_string, multi_polygon};
ghost use Rattle.wkt_types.specs.Values.{tree_shape};

use crate::geometry::Wkt;
use crate::linestring::LineString;
use crate::multilinestring::MultiLineString;
use crate::multipoint::MultiPoint;
use crate::multipolygon::MultiPolygon;
use crate::point::Point;
use crate::polygon::Polygon;
use wkt_access::{Dimensions, GeometryTrait, GeometryType};
use wkt_flat::{Line, Rect, Triangle};
use wkt_num::WktNum;

/// The kind of a geometry, with the geometry.
type WktType<'a, T> = GeometryType<
    'a,
    Point<T>,
    LineString<T>,
    Polygon<T>,
    MultiPoint<T>,
    MultiLineString<T>,
    MultiPolygon<T>,
    Rect<T>,
    Triangle<T>,
    Line<T>,
>;

impl<T: WktNum> GeometryTrait for Wkt<T> {
    type T = T;

    type PointType = Point<T>;

    type LineStringType = LineString<T>;

    type PolygonType = Polygon<T>;

    type MultiPointType = MultiPoint<T>;

    type MultiLineStringType = MultiLineString<T>;

    type MultiPolygonType = MultiPolygon<T>;

    type RectType = Rect<T>;

    type TriangleType = Triangle<T>;

    type LineType = Line<T>;

    ghost shape = { λ w. tree_shape (tree w) };

    fn dim(&self) -> Dimensions {
        Dimensions::from(self.dimension())
    }

    fn as_type(&self) -> WktType<'_, T> {
        match self {
            Wkt::Point(p) => GeometryType::Point(p),
            Wkt::LineString(l) => GeometryType::LineString(l),
            Wkt::Polygon(y) => GeometryType::Polygon(y),
            Wkt::MultiPoint(m) => GeometryType::MultiPoint(m),
            Wkt::MultiLineString(m) => GeometryType::MultiLineString(m),
            Wkt::MultiPolygon(m) => GeometryType::MultiPolygon(m),
            Wkt::GeometryCollection(c) => GeometryType::GeometryCollection(c.geometries().len()),
        }
    }

    fn geometry(&self, i: usize) -> &Self {
        match self {
            Wkt::GeometryCollection(c) => &c.geometries()[i],
            _ => self,
        }
    }
}

impl<T: WktNum> GeometryTrait for Point<T> {
    type T = T;

    type PointType = Point<T>;

    type LineStringType = LineString<T>;

    type PolygonType = Polygon<T>;

    type MultiPointType = MultiPoint<T>;

    type MultiLineStringType = MultiLineString<T>;

    type MultiPolygonType = MultiPolygon<T>;

    type RectType = Rect<T>;

    type TriangleType = Triangle<T>;

    type LineType = Line<T>;

    ghost shape = { λ x. tree_shape (point x) };

    fn dim(&self) -> Dimensions {
        Dimensions::from(self.dimension())
    }

    fn as_type(&self) -> WktType<'_, T> {
        GeometryType::Point(self)
    }

    fn geometry(&self, _i: usize) -> &Self
        ensures { result.now ≡ self.now }
    {
        self
    }
}

impl<T: WktNum> GeometryTrait for LineString<T> {
    type T = T;

    type PointType = Point<T>;

    type LineStringType = LineString<T>;

    type PolygonType = Polygon<T>;

    type MultiPointType = MultiPoint<T>;

    type MultiLineStringType = MultiLineString<T>;

    type MultiPolygonType = MultiPolygon<T>;

    type RectType = Rect<T>;

    type TriangleType = Triangle<T>;

    type LineType = Line<T>;

    ghost shape = { λ x. tree_shape (line_string x) };

    fn dim(&self) -> Dimensions {
        Dimensions::from(self.dimension())
    }

    fn as_type(&self) -> WktType<'_, T> {
        GeometryType::LineString(self)
    }

    fn geometry(&self, _i: usize) -> &Self
        ensures { result.now ≡ self.now }
    {
        self
    }
}

impl<T: WktNum> GeometryTrait for Polygon<T> {
    type T = T;

    type PointType = Point<T>;

    type LineStringType = LineString<T>;

    type PolygonType = Polygon<T>;

    type MultiPointType = MultiPoint<T>;

    type MultiLineStringType = MultiLineString<T>;

    type MultiPolygonType = MultiPolygon<T>;

    type RectType = Rect<T>;

    type TriangleType = Triangle<T>;

    type LineType = Line<T>;

    ghost shape = { λ x. tree_shape (polygon x) };

    fn dim(&self) -> Dimensions {
        Dimensions::from(self.dimension())
    }

    fn as_type(&self) -> WktType<'_, T> {
        GeometryType::Polygon(self)
    }

    fn geometry(&self, _i: usize) -> &Self
        ensures { result.now ≡ self.now }
    {
        self
    }
}

impl<T: WktNum> GeometryTrait for MultiPoint<T> {
    type T = T;

    type PointType = Point<T>;

    type LineStringType = LineString<T>;

    type PolygonType = Polygon<T>;

    type MultiPointType = MultiPoint<T>;

    type MultiLineStringType = MultiLineString<T>;

    type MultiPolygonType = MultiPolygon<T>;

    type RectType = Rect<T>;

    type TriangleType = Triangle<T>;

    type LineType = Line<T>;

    ghost shape = { λ x. tree_shape (multi_point x) };

    fn dim(&self) -> Dimensions {
        Dimensions::from(self.dimension())
    }

    fn as_type(&self) -> WktType<'_, T> {
        GeometryType::MultiPoint(self)
    }

    fn geometry(&self, _i: usize) -> &Self
        ensures { result.now ≡ self.now }
    {
        self
    }
}

impl<T: WktNum> GeometryTrait for MultiLineString<T> {
    type T = T;

    type PointType = Point<T>;

    type LineStringType = LineString<T>;

    type PolygonType = Polygon<T>;

    type MultiPointType = MultiPoint<T>;

    type MultiLineStringType = MultiLineString<T>;

    type MultiPolygonType = MultiPolygon<T>;

    type RectType = Rect<T>;

    type TriangleType = Triangle<T>;

    type LineType = Line<T>;

    ghost shape = { λ x. tree_shape (multi_line_string x) };

    fn dim(&self) -> Dimensions {
        Dimensions::from(self.dimension())
    }

    fn as_type(&self) -> WktType<'_, T> {
        GeometryType::MultiLineString(self)
    }

    fn geometry(&self, _i: usize) -> &Self
        ensures { result.now ≡ self.now }
    {
        self
    }
}

impl<T: WktNum> GeometryTrait for MultiPolygon<T> {
    type T = T;

    type PointType = Point<T>;

    type LineStringType = LineString<T>;

    type PolygonType = Polygon<T>;

    type MultiPointType = MultiPoint<T>;

    type MultiLineStringType = MultiLineString<T>;

    type MultiPolygonType = MultiPolygon<T>;

    type RectType = Rect<T>;

    type TriangleType = Triangle<T>;

    type LineType = Line<T>;

    ghost shape = { λ x. tree_shape (multi_polygon x) };

    fn dim(&self) -> Dimensions {
        Dimensions::from(self.dimension())
    }

    fn as_type(&self) -> WktType<'_, T> {
        GeometryType::MultiPolygon(self)
    }

    fn geometry(&self, _i: usize) -> &Self
        ensures { result.now ≡ self.now }
    {
        self
    }
}
