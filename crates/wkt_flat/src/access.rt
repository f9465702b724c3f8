//! Access to the parts of each type.
ghost use Rattle.std.specs.Prelude.{map, Some};
ghost use Rattle.wkt_access.specs.declared.dimensions.Dimensions.TheVariants.{Xy};
ghost use Rattle.wkt_access.specs.Parts.{each};
ghost use Rattle.wkt_flat.specs.Shape.{flat_numbers, flat_point_numbers, sequence_numbers, rings_shape, flat_shapes};
ghost use Rattle.wkt_flat.specs.Tree.{flat_trees};

use crate::coord::Coord;
use crate::geometry::{Geometry, GeometryCollection};
use crate::line::Line;
use crate::lists::{LineString, MultiLineString, MultiPoint, MultiPolygon};
use crate::point::Point;
use crate::polygon::Polygon;
use crate::rect::Rect;
use crate::triangle::Triangle;
use wkt_access::{
    CoordTrait, Dimensions, GeometryCollectionTrait, LineStringTrait, LineTrait,
    MultiLineStringTrait, MultiPointTrait, MultiPolygonTrait, PointTrait, PolygonTrait, RectTrait,
    TriangleTrait,
};
use wkt_num::WktNum;

impl<T: WktNum> CoordTrait for Coord<T> {
    type T = T;

    ghost numbers = { flat_numbers };

    ghost dimension = { λ _. Xy };

    fn dim(&self) -> Dimensions {
        Dimensions::Xy
    }

    fn x(&self) -> T {
        self.x
    }

    fn y(&self) -> T {
        self.y
    }

    fn nth(&self, n: usize) -> T {
        if n == 0 { self.x } else { self.y }
    }
}

impl<T: WktNum> PointTrait for Point<T> {
    type T = T;

    type CoordType = Coord<T>;

    ghost dimension = { λ _. Xy };

    ghost coordinate = { λ p. Some (flat_point_numbers p) };

    fn dim(&self) -> Dimensions {
        Dimensions::Xy
    }

    fn coord(&self) -> Option<&Coord<T>> {
        Some(&self.0)
    }
}

impl<T: WktNum> LineTrait for Line<T> {
    type T = T;

    type CoordType = Coord<T>;

    ghost dimension = { λ _. Xy };

    ghost from = { λ l. flat_numbers l.start };

    ghost to = { λ l. flat_numbers l.end };

    fn dim(&self) -> Dimensions {
        Dimensions::Xy
    }

    fn start(&self) -> &Coord<T> {
        &self.start
    }

    fn end(&self) -> &Coord<T> {
        &self.end
    }
}

impl<T: WktNum> LineStringTrait for LineString<T> {
    type T = T;

    type CoordType = Coord<T>;

    ghost dimension = { λ _. Xy };

    ghost coordinates = { sequence_numbers };

    fn dim(&self) -> Dimensions {
        Dimensions::Xy
    }

    fn num_coords(&self) -> usize {
        self.0.len()
    }

    fn coord(&self, i: usize) -> &Coord<T> {
        &self.0[i]
    }
}

impl<T: WktNum> PolygonTrait for Polygon<T> {
    type T = T;

    type RingType = LineString<T>;

    ghost dimension = { λ _. Xy };

    ghost polygon = { rings_shape };

    fn dim(&self) -> Dimensions {
        Dimensions::Xy
    }

    fn exterior(&self) -> Option<&LineString<T>> {
        Some(&self.exterior)
    }

    fn num_interiors(&self) -> usize {
        self.interiors.len()
    }

    fn interior(&self, i: usize) -> &LineString<T> {
        &self.interiors[i]
    }
}

impl<T: WktNum> MultiPointTrait for MultiPoint<T> {
    type T = T;

    type InnerPointType = Point<T>;

    ghost dimension = { λ _. Xy };

    ghost points = { λ ps. map (λ p. Some (flat_point_numbers p)) ps };

    fn dim(&self) -> Dimensions {
        Dimensions::Xy
    }

    fn num_points(&self) -> usize {
        self.0.len()
    }

    fn point(&self, i: usize) -> &Point<T> {
        &self.0[i]
    }
}

impl<T: WktNum> MultiLineStringTrait for MultiLineString<T> {
    type T = T;

    type InnerLineStringType = LineString<T>;

    ghost dimension = { λ _. Xy };

    ghost line_strings = { λ ls. map sequence_numbers ls };

    fn dim(&self) -> Dimensions {
        Dimensions::Xy
    }

    fn num_line_strings(&self) -> usize {
        self.0.len()
    }

    fn line_string(&self, i: usize) -> &LineString<T> {
        &self.0[i]
    }
}

impl<T: WktNum> MultiPolygonTrait for MultiPolygon<T> {
    type T = T;

    type InnerPolygonType = Polygon<T>;

    ghost dimension = { λ _. Xy };

    ghost polygons = { λ ys. map rings_shape ys };

    fn dim(&self) -> Dimensions {
        Dimensions::Xy
    }

    fn num_polygons(&self) -> usize {
        self.0.len()
    }

    fn polygon(&self, i: usize) -> &Polygon<T> {
        &self.0[i]
    }
}

impl<T: WktNum> RectTrait for Rect<T> {
    type T = T;

    type CoordType = Coord<T>;

    ghost dimension = { λ _. Xy };

    ghost min_corner = { λ r. flat_numbers r.min };

    ghost max_corner = { λ r. flat_numbers r.max };

    fn dim(&self) -> Dimensions {
        Dimensions::Xy
    }

    fn min(&self) -> &Coord<T> {
        &self.min
    }

    fn max(&self) -> &Coord<T> {
        &self.max
    }
}

impl<T: WktNum> TriangleTrait for Triangle<T> {
    type T = T;

    type CoordType = Coord<T>;

    ghost dimension = { λ _. Xy };

    ghost first_corner = { λ t. flat_numbers t.0 };

    ghost second_corner = { λ t. flat_numbers t.1 };

    ghost third_corner = { λ t. flat_numbers t.2 };

    fn dim(&self) -> Dimensions {
        Dimensions::Xy
    }

    fn first(&self) -> &Coord<T> {
        &self.0
    }

    fn second(&self) -> &Coord<T> {
        &self.1
    }

    fn third(&self) -> &Coord<T> {
        &self.2
    }
}

impl<T: WktNum> GeometryCollectionTrait for GeometryCollection<T> {
    type T = T;

    type GeometryType = Geometry<T>;

    ghost dimension = { λ _. Xy };

    ghost geometries = { λ c. each (flat_shapes (flat_trees c)) };

    fn dim(&self) -> Dimensions {
        Dimensions::Xy
    }

    #[tactic(auto, using(crate::proofs::TreeLemmas::members_length))]
    fn num_geometries(&self) -> usize {
        self.geometries().len()
    }

    #[tactic(auto, using(crate::proofs::TreeLemmas::members_length, crate::proofs::TreeLemmas::member_got))]
    fn geometry(&self, i: usize) -> &Geometry<T> {
        &self.geometries()[i]
    }
}
