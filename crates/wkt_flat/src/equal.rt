//! When two values are equal: exactly if they hold the same.
ghost use Rattle.std.specs.Prelude.{◌≡◌, IsTrue, ◌↔◌};
ghost use Rattle.std.specs.Cmp.{on_per};
ghost use Rattle.std.specs.Cmp.Lexicographic.{pointwise};
ghost use Rattle.wkt_flat.specs.Equal.{coord_eq, coord_exact, point_eq, point_exact, line_eq, line_exact, sequence_eq, sequence_exact, rings_eq, rings_exact, corners_eq, corners_exact, triangle_eq, triangle_exact, exact_by, exact_per, pointwise_exact, flat_eq, flats_eq, flat_exact, flats_exact};
ghost use Rattle.wkt_flat.specs.Tree.{flat_tree, flat_trees, flat_members};

use crate::coord::Coord;
use crate::geometry::{Geometry, GeometryCollection};
use crate::line::Line;
use crate::lists::{LineString, MultiLineString, MultiPoint, MultiPolygon};
use crate::point::Point;
use crate::polygon::Polygon;
use crate::rect::Rect;
use crate::triangle::Triangle;
use wkt_num::WktNum;

impl<T: WktNum> PartialEq for Coord<T> {
    ghost eq = { coord_eq T.eq };

    ghost laws = { exact_per (coord_exact (exact_by T.same)) };

    /// True exactly if both numbers are equal.
    fn eq(&self, other: &Self) -> bool
        ensures eq { result ≡ coord_eq T.eq self.now other.now }
        ensures exact { IsTrue result ↔ (self.now ≡ other.now) }
    {
        self.x == other.x && self.y == other.y
    }
}

impl<T: WktNum> PartialEq for Point<T> {
    ghost eq = { point_eq T.eq };

    ghost laws = { exact_per (point_exact (exact_by T.same)) };

    /// True exactly if the coordinates are equal.
    #[inline(never)]
    fn eq(&self, other: &Self) -> bool
        ensures eq { result ≡ point_eq T.eq self.now other.now }
        ensures exact { IsTrue result ↔ (self.now ≡ other.now) }
    {
        self.0 == other.0
    }
}

impl<T: WktNum> PartialEq for Line<T> {
    ghost eq = { line_eq T.eq };

    ghost laws = { exact_per (line_exact (exact_by T.same)) };

    /// True exactly if both ends are equal, in this order.
    #[inline(never)]
    fn eq(&self, other: &Self) -> bool
        ensures eq { result ≡ line_eq T.eq self.now other.now }
        ensures exact { IsTrue result ↔ (self.now ≡ other.now) }
    {
        self.start == other.start && self.end == other.end
    }
}

impl<T: WktNum> PartialEq for LineString<T> {
    ghost eq = { pointwise (coord_eq T.eq) };

    ghost laws = { exact_per (pointwise_exact (coord_exact (exact_by T.same))) };

    /// True exactly if the coordinates are equal, in order.
    #[inline(never)]
    #[tactic(auto, using(crate::proofs::TreeLemmas::coords_reported))]
    fn eq(&self, other: &Self) -> bool
        ensures eq { result ≡ pointwise (coord_eq T.eq) self.now other.now }
        ensures exact { IsTrue result ↔ (self.now ≡ other.now) }
    {
        self.0.as_slice() == other.0.as_slice()
    }
}

impl<T: WktNum> PartialEq for Polygon<T> {
    ghost eq = { rings_eq (coord_eq T.eq) };

    ghost laws = { exact_per (rings_exact (coord_exact (exact_by T.same))) };

    /// True exactly if the exteriors are equal, and the interiors in order.
    #[inline(never)]
    fn eq(&self, other: &Self) -> bool
        ensures eq { result ≡ rings_eq (coord_eq T.eq) self.now other.now }
        ensures exact { IsTrue result ↔ (self.now ≡ other.now) }
    {
        self.exterior == other.exterior && self.interiors.as_slice() == other.interiors.as_slice()
    }
}

impl<T: WktNum> PartialEq for MultiPoint<T> {
    ghost eq = { pointwise (point_eq T.eq) };

    ghost laws = { exact_per (pointwise_exact (point_exact (exact_by T.same))) };

    /// True exactly if the points are equal, in order.
    #[inline(never)]
    #[tactic(auto, using(crate::proofs::TreeLemmas::points_reported))]
    fn eq(&self, other: &Self) -> bool
        ensures eq { result ≡ pointwise (point_eq T.eq) self.now other.now }
        ensures exact { IsTrue result ↔ (self.now ≡ other.now) }
    {
        self.0.as_slice() == other.0.as_slice()
    }
}

impl<T: WktNum> PartialEq for MultiLineString<T> {
    ghost eq = { pointwise (sequence_eq T.eq) };

    ghost laws = { exact_per (pointwise_exact (sequence_exact (exact_by T.same))) };

    /// True exactly if the line strings are equal, in order.
    #[inline(never)]
    fn eq(&self, other: &Self) -> bool
        ensures eq { result ≡ pointwise (sequence_eq T.eq) self.now other.now }
        ensures exact { IsTrue result ↔ (self.now ≡ other.now) }
    {
        self.0.as_slice() == other.0.as_slice()
    }
}

impl<T: WktNum> PartialEq for MultiPolygon<T> {
    ghost eq = { pointwise (rings_eq (coord_eq T.eq)) };

    ghost laws = { exact_per (pointwise_exact (rings_exact (coord_exact (exact_by T.same)))) };

    /// True exactly if the polygons are equal, in order.
    #[inline(never)]
    #[tactic(auto, using(crate::proofs::TreeLemmas::polygons_reported))]
    fn eq(&self, other: &Self) -> bool
        ensures eq { result ≡ pointwise (rings_eq (coord_eq T.eq)) self.now other.now }
        ensures exact { IsTrue result ↔ (self.now ≡ other.now) }
    {
        self.0.as_slice() == other.0.as_slice()
    }
}

impl<T: WktNum> PartialEq for Rect<T> {
    ghost eq = { corners_eq T.eq };

    ghost laws = { exact_per (corners_exact (exact_by T.same)) };

    /// True exactly if both corners are equal.
    #[inline(never)]
    fn eq(&self, other: &Self) -> bool
        ensures eq { result ≡ corners_eq T.eq self.now other.now }
        ensures exact { IsTrue result ↔ (self.now ≡ other.now) }
    {
        self.min() == other.min() && self.max() == other.max()
    }
}

impl<T: WktNum> PartialEq for Triangle<T> {
    ghost eq = { triangle_eq T.eq };

    ghost laws = { exact_per (triangle_exact (exact_by T.same)) };

    /// True exactly if the corners are equal, in order.
    #[inline(never)]
    fn eq(&self, other: &Self) -> bool
        ensures eq { result ≡ triangle_eq T.eq self.now other.now }
        ensures exact { IsTrue result ↔ (self.now ≡ other.now) }
    {
        self.0 == other.0 && self.1 == other.1 && self.2 == other.2
    }
}

#[cycle(same)]
fn same_geometry<T: WktNum>(a: &Geometry<T>, b: &Geometry<T>) -> bool
    ensures { result ≡ flat_eq T.eq (flat_tree a.now) (flat_tree b.now) }
{
    match (a, b) {
        (Geometry::Point(x), Geometry::Point(y)) => x == y,
        (Geometry::Line(x), Geometry::Line(y)) => x == y,
        (Geometry::LineString(x), Geometry::LineString(y)) => x == y,
        (Geometry::Polygon(x), Geometry::Polygon(y)) => x == y,
        (Geometry::MultiPoint(x), Geometry::MultiPoint(y)) => x == y,
        (Geometry::MultiLineString(x), Geometry::MultiLineString(y)) => x == y,
        (Geometry::MultiPolygon(x), Geometry::MultiPolygon(y)) => x == y,
        (Geometry::Rect(x), Geometry::Rect(y)) => x == y,
        (Geometry::Triangle(x), Geometry::Triangle(y)) => x == y,
        (Geometry::GeometryCollection(x), Geometry::GeometryCollection(y)) => same_collection(x, y),
        _ => false,
    }
}

#[cycle(same)]
fn same_collection<T: WktNum>(a: &GeometryCollection<T>, b: &GeometryCollection<T>) -> bool
    ensures { result ≡ flats_eq T.eq (flat_trees a.now) (flat_trees b.now) }
{
    same_members(&a.0, &b.0)
}

#[cycle(same)]
fn same_members<T: WktNum>(a: &[Geometry<T>], b: &[Geometry<T>]) -> bool
    ensures { result ≡ flats_eq T.eq (flat_members a.now) (flat_members b.now) }
{
    for (i, x) in a.iter().enumerate() {
        match b.get(i) {
            None => return false,
            Some(y) => {
                if !same_geometry(x, y) {
                    return false;
                }
            }
        }
    }
    a.len() == b.len()
}

impl<T: WktNum> PartialEq for Geometry<T> {
    ghost eq = { λ a b. flat_eq T.eq (flat_tree a) (flat_tree b) };

    ghost laws = { on_per flat_tree (exact_per (flat_exact (exact_by T.same))) };

    /// True exactly if the kinds are equal, and what the geometries hold.
    fn eq(&self, other: &Self) -> bool
        ensures eq { result ≡ flat_eq T.eq (flat_tree self.now) (flat_tree other.now) }
        ensures exact { IsTrue result ↔ (flat_tree self.now ≡ flat_tree other.now) }
    {
        same_geometry(self, other)
    }
}

impl<T: WktNum> PartialEq for GeometryCollection<T> {
    ghost eq = { λ a b. flats_eq T.eq (flat_trees a) (flat_trees b) };

    ghost laws = { on_per flat_trees (exact_per (flats_exact (exact_by T.same))) };

    /// True exactly if the geometries are equal, in order.
    fn eq(&self, other: &Self) -> bool
        ensures eq { result ≡ flats_eq T.eq (flat_trees self.now) (flat_trees other.now) }
        ensures exact { IsTrue result ↔ (flat_trees self.now ≡ flat_trees other.now) }
    {
        same_collection(self, other)
    }
}
