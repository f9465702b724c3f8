//! Access to the parts of each type.
ghost use Rattle.std.specs.Prelude.{map};
ghost use Rattle.wkt_access.specs.Parts.{members_of};
ghost use Rattle.wkt_access.specs.Shapes.{header_of, polygon_of};
ghost use Rattle.wkt_types.specs.Held.{coord_dim, numbers_of};
ghost use Rattle.wkt_types.specs.Tree.{collection_tree, tree_dim};
ghost use Rattle.wkt_types.specs.Values.{point_numbers, line_string_numbers, polygon_numbers, tree_shape};

use crate::coord::Coord;
use crate::geometry::{GeometryCollection, Wkt};
use crate::linestring::LineString;
use crate::multilinestring::MultiLineString;
use crate::multipoint::MultiPoint;
use crate::multipolygon::MultiPolygon;
use crate::point::Point;
use crate::polygon::Polygon;
use wkt_access::{
    CoordTrait, Dimensions, GeometryCollectionTrait, LineStringTrait, MultiLineStringTrait,
    MultiPointTrait, MultiPolygonTrait, PointTrait, PolygonTrait,
};
use wkt_num::WktNum;

impl<T: WktNum> CoordTrait for Coord<T> {
    type T = T;

    ghost numbers = { numbers_of };

    ghost dimension = { λ c. header_of (coord_dim c) };

    fn dim(&self) -> Dimensions {
        match (&self.z, &self.m) {
            (None, None) => Dimensions::Xy,
            (Some(_), None) => Dimensions::Xyz,
            (None, Some(_)) => Dimensions::Xym,
            (Some(_), Some(_)) => Dimensions::Xyzm,
        }
    }

    fn x(&self) -> T {
        self.x
    }

    fn y(&self) -> T {
        self.y
    }

    fn nth(&self, n: usize) -> T {
        match (n, self.z, self.m) {
            (0, _, _) => self.x,
            (2, Some(z), _) => z,
            (2, None, Some(m)) => m,
            (3, _, Some(m)) => m,
            // Place 1: there are no others.
            _ => self.y,
        }
    }
}

impl<T: WktNum> PointTrait for Point<T> {
    type T = T;

    type CoordType = Coord<T>;

    ghost dimension = { λ p. header_of p.dim };

    ghost coordinate = { point_numbers };

    fn dim(&self) -> Dimensions {
        Dimensions::from(self.dimension())
    }

    fn coord(&self) -> Option<&Coord<T>> {
        Point::coord(self)
    }
}

impl<T: WktNum> LineStringTrait for LineString<T> {
    type T = T;

    type CoordType = Coord<T>;

    ghost dimension = { λ l. header_of l.dim };

    ghost coordinates = { line_string_numbers };

    fn dim(&self) -> Dimensions {
        Dimensions::from(self.dimension())
    }

    fn num_coords(&self) -> usize {
        self.coords().len()
    }

    #[tactic(auto, using(crate::proofs::TreeLemmas::coord_is))]
    fn coord(&self, i: usize) -> &Coord<T> {
        &self.coords()[i]
    }
}

impl<T: WktNum> PolygonTrait for Polygon<T> {
    type T = T;

    type RingType = LineString<T>;

    ghost dimension = { λ y. header_of y.dim };

    ghost polygon = { λ y. polygon_of (polygon_numbers y) };

    fn dim(&self) -> Dimensions {
        Dimensions::from(self.dimension())
    }

    fn exterior(&self) -> Option<&LineString<T>> {
        self.rings().first()
    }

    fn num_interiors(&self) -> usize {
        match self.rings() {
            [] => 0,
            [_, interiors @ ..] => interiors.len(),
        }
    }

    #[tactic(auto, using(crate::proofs::TreeLemmas::interior_is))]
    fn interior(&self, i: usize) -> &LineString<T> {
        &self.rings()[i + 1]
    }
}

impl<T: WktNum> MultiPointTrait for MultiPoint<T> {
    type T = T;

    type InnerPointType = Point<T>;

    ghost dimension = { λ m. header_of m.dim };

    ghost points = { λ m. map point_numbers m.parts };

    fn dim(&self) -> Dimensions {
        Dimensions::from(self.dimension())
    }

    fn num_points(&self) -> usize {
        self.points().len()
    }

    #[tactic(auto, using(crate::proofs::TreeLemmas::point_is))]
    fn point(&self, i: usize) -> &Point<T> {
        &self.points()[i]
    }
}

impl<T: WktNum> MultiLineStringTrait for MultiLineString<T> {
    type T = T;

    type InnerLineStringType = LineString<T>;

    ghost dimension = { λ m. header_of m.dim };

    ghost line_strings = { λ m. map line_string_numbers m.parts };

    fn dim(&self) -> Dimensions {
        Dimensions::from(self.dimension())
    }

    fn num_line_strings(&self) -> usize {
        self.line_strings().len()
    }

    fn line_string(&self, i: usize) -> &LineString<T> {
        &self.line_strings()[i]
    }
}

impl<T: WktNum> MultiPolygonTrait for MultiPolygon<T> {
    type T = T;

    type InnerPolygonType = Polygon<T>;

    ghost dimension = { λ m. header_of m.dim };

    ghost polygons = { λ m. map polygon_of (map polygon_numbers m.parts) };

    fn dim(&self) -> Dimensions {
        Dimensions::from(self.dimension())
    }

    fn num_polygons(&self) -> usize {
        self.polygons().len()
    }

    #[tactic(auto, using(crate::proofs::TreeLemmas::polygon_is))]
    fn polygon(&self, i: usize) -> &Polygon<T> {
        &self.polygons()[i]
    }
}

impl<T: WktNum> GeometryCollectionTrait for GeometryCollection<T> {
    type T = T;

    type GeometryType = Wkt<T>;

    ghost dimension = { λ c. header_of (tree_dim (collection_tree c)) };

    ghost geometries = { λ c. members_of (tree_shape (collection_tree c)) };

    fn dim(&self) -> Dimensions {
        Dimensions::from(self.dimension())
    }

    fn num_geometries(&self) -> usize {
        self.geometries().len()
    }

    fn geometry(&self, i: usize) -> &Wkt<T> {
        &self.geometries()[i]
    }
}
