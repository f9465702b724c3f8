//! Writes a geometry of any kind. It has no error.
#![tactic(auto, using(crate::proofs::FirstErrors::none_at))]

ghost use Rattle.std.specs.Prelude.{◌≡◌, ◌++◌, None, codes};
ghost use Rattle.wkt_access.specs.Faults.{fault};
ghost use Rattle.wkt_access.specs.Shapes.{dimension};
ghost use Rattle.wkt_access.specs.Parts.{IsCollectionOf};
ghost use Rattle.wkt_write.specs.Pieces.{gap};
ghost use Rattle.wkt_access.specs.Texts.{suffix, shape_text};
ghost use Rattle.wkt_num.specs.Sink.{Puts};

use crate::check::dimension_in;
use crate::kinds::{
    Kind, Line, LineString, MultiLineString, MultiPoint, MultiPolygon, Point, Polygon, Rect,
    Triangle,
};
use crate::put_parts::{put_closing, put_header, put_opening, put_separator};
use std::fmt;
use wkt_access::{Dimensions, GeometryTrait, GeometryType};
use wkt_num::TextSink;

/// Writes the text of a geometry.
#[cycle(geometries)]
pub(crate) fn put_geometry<W: TextSink, G: GeometryTrait>(f: &mut W, g: &G) -> fmt::Result
    requires { fault (G.shape g.now) ≡ None }
    ensures { Puts W.sink f.old (shape_text G.T.num (G.shape g.now)) f.new result }
{
    match g.as_type() {
        GeometryType::Point(p) => Point(p).put(f),
        GeometryType::LineString(l) => LineString(l).put(f),
        GeometryType::Polygon(y) => Polygon(y).put(f),
        GeometryType::MultiPoint(m) => MultiPoint(m).put(f),
        GeometryType::MultiLineString(m) => MultiLineString(m).put(f),
        GeometryType::MultiPolygon(m) => MultiPolygon(m).put(f),
        GeometryType::GeometryCollection(n) => put_members(f, g, n),
        GeometryType::Rect(r) => Rect(r).put(f),
        GeometryType::Triangle(y) => Triangle(y).put(f),
        GeometryType::Line(l) => Line(l).put(f),
    }
}

/// Writes a geometry that is a collection of `count` members.
#[cycle(geometries)]
fn put_members<W: TextSink, G: GeometryTrait>(f: &mut W, g: &G, count: usize) -> fmt::Result
    requires fault { fault (G.shape g.now) ≡ None }
    requires count { IsCollectionOf count (G.shape g.now) }
    ensures { Puts W.sink f.old (shape_text G.T.num (G.shape g.now)) f.new result }
{
    put_collection_header(f, g.dim(), count == 0)?;
    put_opening(f, count == 0)?;
    for i in 0..count {
        put_separator(f, ",", i)?;
        put_geometry(f, g.geometry(i))?;
    }
    put_closing(f, count == 0)
}

/// Writes the header of a collection.
fn put_collection_header<W: TextSink>(f: &mut W, d: Dimensions, is_empty: bool) -> fmt::Result
    ensures { Puts W.sink f.old (codes "GEOMETRYCOLLECTION" ++ (suffix (dimension d) ++ gap is_empty)) f.new result }
{
    put_header(f, "GEOMETRYCOLLECTION", dimension_in(d), is_empty)
}
