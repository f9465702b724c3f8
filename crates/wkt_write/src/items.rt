//! Lists of what stands between commas in one geometry: checked, and written, by one loop each.
//!
//! `k` is how many numbers of each coordinate are written. What goes over a whole geometry is a part of its callers,
//! one a kind: a call more would cost each short geometry.
#![tactic(auto, using(crate::proofs::FirstErrors::none_at))]

ghost use Rattle.std.specs.Prelude.{◌≡◌, ◌<◌, ℕ, List, length, map, codes, slice_get, Option, None, IfSome};
ghost use Rattle.std.specs.List.{AllByRecursion};
ghost use Rattle.wkt_access.specs.declared.error.Error.{Error};
ghost use Rattle.wkt_access.specs.Faults.{coordinate_fault, coordinates_fault, point_fault, polygon_fault, fault, first_fault, under};
ghost use Rattle.wkt_access.specs.Shapes.{PolygonShape, Shape, printed, dimension};
ghost use Rattle.wkt_access.specs.Texts.{separated, listed, headed, shape_text};
ghost use Rattle.wkt_access.specs.Values.{size};
ghost use Rattle.wkt_num.specs.Sink.{Puts};
ghost use Rattle.wkt_write.specs.Pieces.{Checks, KnownCoord, KnownCoords, KnownPoint, KnownPolygon, Known, each_after, cut_coordinate, cut_coordinates, cut_point, cut_polygon};

use crate::check::{
    check_coord, check_coords, check_geometry, check_header, check_point_coord, check_rings,
    dimension_in, size_in,
};
use crate::put_geometries::put_geometry;
use crate::put_parts::{
    put_closing, put_coord, put_coords, put_header, put_opening, put_point_body, put_polygon_body,
    put_separator,
};
use std::fmt;
use wkt_access::{
    Dimensions, Error, GeometryCollectionTrait, LineStringTrait, MultiLineStringTrait,
    MultiPointTrait, MultiPolygonTrait, PolygonTrait,
};
use wkt_num::TextSink;

/// A list of items, each by its place.
pub(crate) trait Items {
    /// What an item shows of itself.
    ghost Item: { Type 0 };

    /// All of them in order.
    ghost items: { Self → List Item };

    /// The first error of an item.
    ghost fault_of: { ℕ → Item → Option Error };

    /// What is known of an item without one.
    ghost KnownOf: { ℕ → Item → Type 0 };

    /// The text of an item.
    ghost text_of: { ℕ → Item → List ℕ };

    /// How many there are.
    fn count(&self) -> usize
        ensures { result ≡ length (items self.now) };

    /// The first error of the item at place `i`.
    fn check(&self, i: usize, k: usize) -> Result<(), Error>
        requires { i < length (items self.now) }
        ensures { IfSome (slice_get (items self.now) i) (λ x. Checks result (fault_of k x) (KnownOf k x)) };

    /// Writes the item at place `i`. No item has an error.
    fn put<W: TextSink>(&self, f: &mut W, i: usize, k: usize) -> fmt::Result
        requires place { i < length (items self.now) }
        requires clean { first_fault (fault_of k) (items self.now) ≡ None }
        ensures { IfSome (slice_get (items self.now) i) (λ x. Puts W.sink f.old (text_of k x) f.new result) };
}

/// The first error of the items.
pub(crate) fn check_items<X: Items>(items: &X, k: usize) -> Result<(), Error>
    ensures { Checks result (first_fault (X.fault_of k) (X.items items.now))
        (AllByRecursion (X.KnownOf k) (X.items items.now)) }
{
    for i in 0..items.count() {
        items.check(i, k)?;
    }
    Ok(())
}

/// The first error of a geometry of these items, whose header says `dim`.
#[inline(always)]
pub(crate) fn check_listed<X: Items>(dim: Dimensions, items: &X) -> Result<(), Error>
    ensures { Checks result (under (printed dim) (λ k. first_fault (X.fault_of k) (X.items items.now)))
        (AllByRecursion (X.KnownOf (size (dimension dim))) (X.items items.now)) }
{
    let k = check_header(dim)?;
    check_items(items, k)
}

/// Writes the items, with commas between them.
#[tactic(auto, using(crate::proofs::FirstErrors::none_at, crate::proofs::FirstErrors::listing_broken_before, crate::proofs::FirstErrors::listing_broken_at, wkt_num::proofs::SinkCalls::puts_err))]
fn put_items<W: TextSink, X: Items>(f: &mut W, items: &X, k: usize) -> fmt::Result
    requires { first_fault (X.fault_of k) (X.items items.now) ≡ None }
    ensures { Puts W.sink f.old (separated (codes ",") (map (X.text_of k) (X.items items.now))) f.new result }
{
    for i in 0..items.count() {
        put_separator(f, ",", i)?;
        items.put(f, i, k)?;
    }
    Ok(())
}

/// Writes the items, with a comma before each.
#[tactic(auto, using(crate::proofs::FirstErrors::none_at, crate::proofs::FirstErrors::following_broken_before, crate::proofs::FirstErrors::following_broken_at, wkt_num::proofs::SinkCalls::puts_err, wkt_num::proofs::SinkCalls::adds_none))]
pub(crate) fn put_following<W: TextSink, X: Items>(f: &mut W, items: &X, k: usize) -> fmt::Result
    requires { first_fault (X.fault_of k) (X.items items.now) ≡ None }
    ensures { Puts W.sink f.old (each_after (codes ",") (map (X.text_of k) (X.items items.now))) f.new result }
{
    for i in 0..items.count() {
        f.write_str(",")?;
        items.put(f, i, k)?;
    }
    Ok(())
}

/// Writes the items in parentheses, or EMPTY where there is none.
pub(crate) fn put_body<W: TextSink, X: Items>(f: &mut W, items: &X, k: usize) -> fmt::Result
    requires { first_fault (X.fault_of k) (X.items items.now) ≡ None }
    ensures { Puts W.sink f.old (listed (map (X.text_of k) (X.items items.now))) f.new result }
{
    let is_empty = items.count() == 0;
    put_opening(f, is_empty)?;
    put_items(f, items, k)?;
    put_closing(f, is_empty)
}

/// Writes a geometry of these items: its kind word, its dimension, and its body.
#[inline(always)]
#[tactic(auto, using(wkt_num::proofs::SinkCalls::puts_err, crate::proofs::Bracketed::headed_broken, crate::proofs::Bracketed::headed_adds, crate::proofs::FirstErrors::none_counted))]
pub(crate) fn put_listed<W: TextSink, X: Items>(
    f: &mut W,
    word: &str,
    dim: Dimensions,
    items: &X,
) -> fmt::Result
    requires { first_fault (X.fault_of (size (dimension dim))) (X.items items.now) ≡ None }
    ensures { Puts W.sink f.old
        (headed word.now (dimension dim) (map (X.text_of (size (dimension dim))) (X.items items.now))) f.new result }
{
    let d = dimension_in(dim);
    put_header(f, word, d, items.count() == 0)?;
    put_body(f, items, size_in(d))
}

/// The coordinates of a line string or a ring.
#[derive(Drop)]
pub(crate) struct Coords<'a, L>(pub(crate) &'a L);

impl<L: LineStringTrait> Items for Coords<'_, L> {
    ghost Item = { List L.T };

    ghost items = { λ x. L.coordinates x.0.now };

    ghost fault_of = { coordinate_fault };

    ghost KnownOf = { KnownCoord L.T.is_value };

    ghost text_of = { cut_coordinate L.T.num };

    fn count(&self) -> usize {
        self.0.num_coords()
    }

    fn check(&self, i: usize, k: usize) -> Result<(), Error> {
        check_coord(self.0.coord(i), k)
    }

    fn put<W: TextSink>(&self, f: &mut W, i: usize, k: usize) -> fmt::Result {
        put_coord(f, self.0.coord(i), k)
    }
}

/// The interiors of a polygon.
#[derive(Drop)]
pub(crate) struct Interiors<'a, Y>(pub(crate) &'a Y);

impl<Y: PolygonTrait> Items for Interiors<'_, Y> {
    ghost Item = { List (List Y.T) };

    ghost items = { λ x. (Y.polygon x.0.now).interiors };

    ghost fault_of = { coordinates_fault };

    ghost KnownOf = { KnownCoords Y.T.is_value };

    ghost text_of = { cut_coordinates Y.T.num };

    fn count(&self) -> usize {
        self.0.num_interiors()
    }

    fn check(&self, i: usize, k: usize) -> Result<(), Error> {
        check_coords(self.0.interior(i), k)
    }

    fn put<W: TextSink>(&self, f: &mut W, i: usize, k: usize) -> fmt::Result {
        put_coords(f, self.0.interior(i), k)
    }
}

/// The members of a multipoint.
#[derive(Drop)]
pub(crate) struct Points<'a, M>(pub(crate) &'a M);

impl<M: MultiPointTrait> Items for Points<'_, M> {
    ghost Item = { Option (List M.T) };

    ghost items = { λ x. M.points x.0.now };

    ghost fault_of = { point_fault };

    ghost KnownOf = { KnownPoint M.T.is_value };

    ghost text_of = { cut_point M.T.num };

    fn count(&self) -> usize {
        self.0.num_points()
    }

    fn check(&self, i: usize, k: usize) -> Result<(), Error> {
        check_point_coord(self.0.point(i), k)
    }

    fn put<W: TextSink>(&self, f: &mut W, i: usize, k: usize) -> fmt::Result {
        put_point_body(f, self.0.point(i), k)
    }
}

/// The members of a multilinestring.
#[derive(Drop)]
pub(crate) struct LineStrings<'a, M>(pub(crate) &'a M);

impl<M: MultiLineStringTrait> Items for LineStrings<'_, M> {
    ghost Item = { List (List M.T) };

    ghost items = { λ x. M.line_strings x.0.now };

    ghost fault_of = { coordinates_fault };

    ghost KnownOf = { KnownCoords M.T.is_value };

    ghost text_of = { cut_coordinates M.T.num };

    fn count(&self) -> usize {
        self.0.num_line_strings()
    }

    fn check(&self, i: usize, k: usize) -> Result<(), Error> {
        check_coords(self.0.line_string(i), k)
    }

    fn put<W: TextSink>(&self, f: &mut W, i: usize, k: usize) -> fmt::Result {
        put_coords(f, self.0.line_string(i), k)
    }
}

/// The members of a multipolygon.
#[derive(Drop)]
pub(crate) struct Polygons<'a, M>(pub(crate) &'a M);

impl<M: MultiPolygonTrait> Items for Polygons<'_, M> {
    ghost Item = { PolygonShape M.T };

    ghost items = { λ x. M.polygons x.0.now };

    ghost fault_of = { polygon_fault };

    ghost KnownOf = { KnownPolygon M.T.is_value };

    ghost text_of = { cut_polygon M.T.num };

    fn count(&self) -> usize {
        self.0.num_polygons()
    }

    fn check(&self, i: usize, k: usize) -> Result<(), Error> {
        check_rings(self.0.polygon(i), k)
    }

    fn put<W: TextSink>(&self, f: &mut W, i: usize, k: usize) -> fmt::Result {
        put_polygon_body(f, self.0.polygon(i), k)
    }
}

/// The members of a collection, each of which has a header of its own.
#[derive(Drop)]
pub(crate) struct Members<'a, C>(pub(crate) &'a C);

impl<C: GeometryCollectionTrait> Items for Members<'_, C> {
    ghost Item = { Shape C.T };

    ghost items = { λ x. C.geometries x.0.now };

    ghost fault_of = { λ _. fault };

    ghost KnownOf = { λ _. Known C.T.is_value };

    ghost text_of = { λ _. shape_text C.T.num };

    fn count(&self) -> usize {
        self.0.num_geometries()
    }

    fn check(&self, i: usize, _k: usize) -> Result<(), Error> {
        check_geometry(self.0.geometry(i))
    }

    fn put<W: TextSink>(&self, f: &mut W, i: usize, _k: usize) -> fmt::Result {
        put_geometry(f, self.0.geometry(i))
    }
}
