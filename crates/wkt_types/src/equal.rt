//! When two values are equal: exactly if they hold the same.
ghost use Rattle.std.specs.Prelude.{◌≡◌, IsTrue, ◌↔◌};
ghost use Rattle.std.specs.Cmp.{on_per};
ghost use Rattle.wkt_flat.specs.Equal.{exact_by, exact_per};
ghost use Rattle.wkt_types.specs.Equal.{wkt_coord_eq, wkt_coord_exact, wkt_point_eq, wkt_point_exact, wkt_line_string_eq, wkt_line_string_exact, polygon_eq, polygon_exact, held_eq, held_exact, held_point_eq, held_point_exact, tree_eq, trees_eq, tree_exact};
ghost use Rattle.wkt_types.specs.Tree.{tree, collection_tree, members};

use crate::coord::Coord;
use crate::dimension::and_same;
use crate::geometry::{GeometryCollection, Wkt};
use crate::linestring::LineString;
use crate::multilinestring::MultiLineString;
use crate::multipoint::MultiPoint;
use crate::multipolygon::MultiPolygon;
use crate::point::Point;
use crate::polygon::Polygon;
use wkt_num::WktNum;

impl<T: WktNum> PartialEq for Coord<T> {
    ghost eq = { wkt_coord_eq T.eq };

    ghost laws = { exact_per (wkt_coord_exact (exact_by T.same)) };

    /// True exactly if the numbers are equal and the same ones are there.
    fn eq(&self, other: &Self) -> bool
        ensures eq { result ≡ wkt_coord_eq T.eq self.now other.now }
        ensures exact { IsTrue result ↔ (self.now ≡ other.now) }
    {
        self.x == other.x && self.y == other.y && self.z == other.z && self.m == other.m
    }
}

impl<T: WktNum> PartialEq for Point<T> {
    ghost eq = { held_point_eq (wkt_coord_eq T.eq) };

    ghost laws = { exact_per (held_point_exact (wkt_coord_exact (exact_by T.same))) };

    /// True exactly if coordinate and dimension are equal.
    #[inline(never)]
    fn eq(&self, other: &Self) -> bool
        ensures eq { result ≡ held_point_eq (wkt_coord_eq T.eq) self.now other.now }
        ensures exact { IsTrue result ↔ (self.now ≡ other.now) }
    {
        and_same(
            self.coord == other.coord,
            self.dimension(),
            other.dimension(),
        )
    }
}

impl<T: WktNum> PartialEq for LineString<T> {
    ghost eq = { held_eq (wkt_coord_eq T.eq) };

    ghost laws = { exact_per (held_exact (wkt_coord_exact (exact_by T.same))) };

    /// True exactly if coordinates and dimension are equal.
    #[inline(never)]
    fn eq(&self, other: &Self) -> bool
        ensures eq { result ≡ held_eq (wkt_coord_eq T.eq) self.now other.now }
        ensures exact { IsTrue result ↔ (self.now ≡ other.now) }
    {
        and_same(
            self.coords() == other.coords(),
            self.dimension(),
            other.dimension(),
        )
    }
}

impl<T: WktNum> PartialEq for Polygon<T> {
    ghost eq = { held_eq (wkt_line_string_eq T.eq) };

    ghost laws = { exact_per (held_exact (wkt_line_string_exact (exact_by T.same))) };

    /// True exactly if rings and dimension are equal.
    #[inline(never)]
    fn eq(&self, other: &Self) -> bool
        ensures eq { result ≡ held_eq (wkt_line_string_eq T.eq) self.now other.now }
        ensures exact { IsTrue result ↔ (self.now ≡ other.now) }
    {
        and_same(
            self.rings() == other.rings(),
            self.dimension(),
            other.dimension(),
        )
    }
}

impl<T: WktNum> PartialEq for MultiPoint<T> {
    ghost eq = { held_eq (wkt_point_eq T.eq) };

    ghost laws = { exact_per (held_exact (wkt_point_exact (exact_by T.same))) };

    /// True exactly if points and dimension are equal.
    #[inline(never)]
    fn eq(&self, other: &Self) -> bool
        ensures eq { result ≡ held_eq (wkt_point_eq T.eq) self.now other.now }
        ensures exact { IsTrue result ↔ (self.now ≡ other.now) }
    {
        and_same(
            self.points() == other.points(),
            self.dimension(),
            other.dimension(),
        )
    }
}

impl<T: WktNum> PartialEq for MultiLineString<T> {
    ghost eq = { held_eq (wkt_line_string_eq T.eq) };

    ghost laws = { exact_per (held_exact (wkt_line_string_exact (exact_by T.same))) };

    /// True exactly if line strings and dimension are equal.
    #[inline(never)]
    fn eq(&self, other: &Self) -> bool
        ensures eq { result ≡ held_eq (wkt_line_string_eq T.eq) self.now other.now }
        ensures exact { IsTrue result ↔ (self.now ≡ other.now) }
    {
        and_same(
            self.line_strings() == other.line_strings(),
            self.dimension(),
            other.dimension(),
        )
    }
}

impl<T: WktNum> PartialEq for MultiPolygon<T> {
    ghost eq = { held_eq (polygon_eq T.eq) };

    ghost laws = { exact_per (held_exact (polygon_exact (exact_by T.same))) };

    /// True exactly if polygons and dimension are equal.
    #[inline(never)]
    fn eq(&self, other: &Self) -> bool
        ensures eq { result ≡ held_eq (polygon_eq T.eq) self.now other.now }
        ensures exact { IsTrue result ↔ (self.now ≡ other.now) }
    {
        and_same(
            self.polygons() == other.polygons(),
            self.dimension(),
            other.dimension(),
        )
    }
}

#[cycle(same)]
fn same_wkt<T: WktNum>(a: &Wkt<T>, b: &Wkt<T>) -> bool
    ensures { result ≡ tree_eq T.eq (tree a.now) (tree b.now) }
{
    match (a, b) {
        (Wkt::Point(x), Wkt::Point(y)) => x == y,
        (Wkt::LineString(x), Wkt::LineString(y)) => x == y,
        (Wkt::Polygon(x), Wkt::Polygon(y)) => x == y,
        (Wkt::MultiPoint(x), Wkt::MultiPoint(y)) => x == y,
        (Wkt::MultiLineString(x), Wkt::MultiLineString(y)) => x == y,
        (Wkt::MultiPolygon(x), Wkt::MultiPolygon(y)) => x == y,
        (Wkt::GeometryCollection(x), Wkt::GeometryCollection(y)) => same_collection(x, y),
        _ => false,
    }
}

#[cycle(same)]
fn same_collection<T: WktNum>(a: &GeometryCollection<T>, b: &GeometryCollection<T>) -> bool
    ensures { result ≡ tree_eq T.eq (collection_tree a.now) (collection_tree b.now) }
{
    and_same(same_members(&a.geometries, &b.geometries), a.dim, b.dim)
}

#[cycle(same)]
fn same_members<T: WktNum>(a: &[Wkt<T>], b: &[Wkt<T>]) -> bool
    ensures { result ≡ trees_eq T.eq (members a.now) (members b.now) }
{
    for (i, x) in a.iter().enumerate() {
        match b.get(i) {
            None => return false,
            Some(y) => {
                if !same_wkt(x, y) {
                    return false;
                }
            }
        }
    }
    a.len() == b.len()
}

impl<T: WktNum> PartialEq for Wkt<T> {
    ghost eq = { λ a b. tree_eq T.eq (tree a) (tree b) };

    ghost laws = { on_per tree (exact_per (tree_exact (exact_by T.same))) };

    /// True exactly if kind, dimension and parts are equal. Two unequal geometries may have one text, as
    /// `POLYGON(EMPTY)` and `POLYGON EMPTY`: `wkt::same_geometry` compares them by what is written.
    fn eq(&self, other: &Self) -> bool
        ensures eq { result ≡ tree_eq T.eq (tree self.now) (tree other.now) }
        ensures exact { IsTrue result ↔ (tree self.now ≡ tree other.now) }
    {
        same_wkt(self, other)
    }
}

impl<T: WktNum> PartialEq for GeometryCollection<T> {
    ghost eq = { λ a b. tree_eq T.eq (collection_tree a) (collection_tree b) };

    ghost laws = { on_per collection_tree (exact_per (tree_exact (exact_by T.same))) };

    /// True exactly if dimension and geometries are equal.
    fn eq(&self, other: &Self) -> bool
        ensures eq { result ≡ tree_eq T.eq (collection_tree self.now) (collection_tree other.now) }
        ensures exact { IsTrue result ↔ (collection_tree self.now ≡ collection_tree other.now) }
    {
        same_collection(self, other)
    }
}
