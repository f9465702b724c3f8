//! The eleven writers into a sink of text, and one into a string.
//!
//! Each checks the whole shape first, so nothing is written of one that is refused.
#![tactic(auto)]

ghost use Rattle.std.specs.Prelude.{string_bytes};
ghost use Rattle.wkt_access.specs.Parts.{collection_of};
ghost use Rattle.wkt_access.specs.Shapes.{Shape};
ghost use Rattle.wkt_write.specs.Writes.{Writes, Pushes};

use crate::kinds::{
    AnyGeometry, Collection, Kind, Line, LineString, MultiLineString, MultiPoint, MultiPolygon,
    Point, Polygon, Rect, Triangle,
};
use wkt_access::{
    Error, GeometryCollectionTrait, GeometryTrait, LineStringTrait, LineTrait,
    MultiLineStringTrait, MultiPointTrait, MultiPolygonTrait, PointTrait, PolygonTrait, RectTrait,
    TriangleTrait,
};
use wkt_num::{StringText, TextSink, WktNum};

/// Writes a geometry of one kind, if its check finds no error.
#[inline(always)]
#[tactic(auto, using(crate::proofs::Writable::lawful, crate::proofs::Writable::refusal, std::proofs::lemmas::Result::err_from_is_err_and))]
fn write_kind<W: TextSink, K: Kind>(f: &mut W, g: &K) -> Result<(), Error>
    ensures { Writes W.sink K.T.is_value K.T.num f.old (K.shape g.now) f.new result }
{
    g.check()?;
    g.put(f)?;
    Ok(())
}

/// Adds the text of a geometry of one kind to a string.
#[inline(always)]
#[tactic(auto, using(crate::proofs::Writable::pushed))]
fn push_kind<K: Kind>(out: &mut String, g: &K) -> Result<(), Error>
    ensures { Pushes K.T.is_value K.T.num (string_bytes out.old) (K.shape g.now) (string_bytes out.new) result }
{
    let mut sink = StringText::new(out);
    let result = write_kind(&mut sink, g);
    sink.into_string();
    result
}

/// Writes a point, as `POINT Z(1 2 3)` or `POINT EMPTY`.
///
/// # Errors
/// [`Error::UnknownDimension`] where its dimension is `Unknown(n)` for another n than 2, 3
/// and 4; then [`Error::TooFewNumbers`] where its coordinate has fewer numbers than its dimension;
/// nothing is written then. [`Error::FmtError`] where the sink fails: a beginning is written then.
pub fn write_point<W: TextSink, P: PointTrait>(f: &mut W, g: &P) -> Result<(), Error>
    ensures { Writes W.sink P.T.is_value P.T.num f.old (Shape.point (P.dimension g.now) (P.coordinate g.now))
        f.new result }
{
    write_kind(f, &Point(g))
}

/// Writes a line string, as `LINESTRING(1 2,3 4)` or `LINESTRING M EMPTY`.
///
/// # Errors
/// As of [`write_point`], with the first coordinate that is too short.
pub fn write_linestring<W: TextSink, L: LineStringTrait>(f: &mut W, g: &L) -> Result<(), Error>
    ensures { Writes W.sink L.T.is_value L.T.num f.old (Shape.line_string (L.dimension g.now) (L.coordinates g.now))
        f.new result }
{
    write_kind(f, &LineString(g))
}

/// Writes a polygon, as `POLYGON((0 0,1 0,0 1,0 0))` with its exterior first.
///
/// A polygon without exterior, or with an empty one, is written `POLYGON EMPTY`, and nothing of
/// its interiors is looked at. An empty interior is written `EMPTY`.
///
/// # Errors
/// As of [`write_point`], with the first coordinate that is too short.
pub fn write_polygon<W: TextSink, Y: PolygonTrait>(f: &mut W, g: &Y) -> Result<(), Error>
    ensures { Writes W.sink Y.T.is_value Y.T.num f.old (Shape.polygon (Y.dimension g.now) (Y.polygon g.now))
        f.new result }
{
    write_kind(f, &Polygon(g))
}

/// Writes a list of points, as `MULTIPOINT((1 2),EMPTY)`: each in parentheses, an empty one `EMPTY`.
///
/// The dimensions of its members aren't looked at.
///
/// # Errors
/// As of [`write_point`], with the first coordinate that is too short.
pub fn write_multi_point<W: TextSink, M: MultiPointTrait>(f: &mut W, g: &M) -> Result<(), Error>
    ensures { Writes W.sink M.T.is_value M.T.num f.old (Shape.multi_point (M.dimension g.now) (M.points g.now))
        f.new result }
{
    write_kind(f, &MultiPoint(g))
}

/// Writes a list of line strings, as `MULTILINESTRING((1 2,3 4),EMPTY)`.
///
/// The dimensions of its members aren't looked at.
///
/// # Errors
/// As of [`write_point`], with the first coordinate that is too short.
pub fn write_multi_linestring<W: TextSink, M: MultiLineStringTrait>(
    f: &mut W,
    g: &M,
) -> Result<(), Error>
    ensures { Writes W.sink M.T.is_value M.T.num f.old
        (Shape.multi_line_string (M.dimension g.now) (M.line_strings g.now)) f.new result }
{
    write_kind(f, &MultiLineString(g))
}

/// Writes a list of polygons, as `MULTIPOLYGON(((0 0,1 0,0 1,0 0)),EMPTY)`.
///
/// The dimensions of its members aren't looked at.
///
/// # Errors
/// As of [`write_point`], with the first coordinate that is too short.
pub fn write_multi_polygon<W: TextSink, M: MultiPolygonTrait>(f: &mut W, g: &M) -> Result<(), Error>
    ensures { Writes W.sink M.T.is_value M.T.num f.old (Shape.multi_polygon (M.dimension g.now) (M.polygons g.now))
        f.new result }
{
    write_kind(f, &MultiPolygon(g))
}

/// Writes a geometry of any kind.
///
/// The text is that of OGC Simple Features as the crate `wkt` writes it: the kind word in capitals,
/// ` Z`, ` M`, ` ZM` or nothing, and ` EMPTY` or the items in parentheses. Numbers have one space
/// between them, and items a comma. The header's dimension says how many numbers of each coordinate
/// are printed: `Unknown(2)`, `Unknown(3)` and `Unknown(4)` count as XY, XYZ and XYZM. No writer
/// takes memory or copies a part.
///
/// Members of a collection have headers of their own: `GEOMETRYCOLLECTION(POINT Z(1 2 3),LINESTRING EMPTY)`.
///
/// # Errors
/// Those of the writer of its kind; for a collection, the first in the order of its text,
/// where its own header comes before its members.
pub fn write_geometry<W: TextSink, G: GeometryTrait>(f: &mut W, g: &G) -> Result<(), Error>
    ensures { Writes W.sink G.T.is_value G.T.num f.old (G.shape g.now) f.new result }
{
    write_kind(f, &AnyGeometry(g))
}

/// Adds the text of a geometry of any kind to a string.
///
/// ```text
/// let mut out = String::new(alloc);
/// push_geometry(&mut out, &rect)?;
/// ```
///
/// # Errors
/// As [`write_geometry`]: the geometry's first error in the order of its text, and then the string is as it was;
/// [`Error::FmtError`] where the string has no memory to grow into; then the geometry has no error,
/// and the string holds what it held and a beginning of the text.
pub fn push_geometry<G: GeometryTrait>(out: &mut String, g: &G) -> Result<(), Error>
    ensures { Pushes G.T.is_value G.T.num (string_bytes out.old) (G.shape g.now) (string_bytes out.new) result }
{
    push_kind(out, &AnyGeometry(g))
}

/// Writes a collection, as `GEOMETRYCOLLECTION(POINT(1 2))` or `GEOMETRYCOLLECTION EMPTY`.
///
/// # Errors
/// As of [`write_geometry`].
pub fn write_geometry_collection<W: TextSink, C: GeometryCollectionTrait>(
    f: &mut W,
    g: &C,
) -> Result<(), Error>
    ensures { Writes W.sink C.T.is_value C.T.num f.old (collection_of (C.dimension g.now) (C.geometries g.now))
        f.new result }
{
    write_kind(f, &Collection(g))
}

/// Writes a rectangle as a polygon of five coordinates.
///
/// `POLYGON((max.x min.y,max.x max.y,min.x max.y,min.x min.y,max.x min.y))` is their order.
///
/// # Errors
/// [`Error::RectUnsupportedDimension`] where its dimension is neither `Xy` nor
/// `Unknown(2)`; nothing is written then. [`Error::FmtError`] as in [`write_point`].
pub fn write_rect<W: TextSink, R: RectTrait>(f: &mut W, g: &R) -> Result<(), Error>
    ensures { Writes W.sink R.T.is_value R.T.num f.old
        (Shape.rect (R.dimension g.now) (R.min_corner g.now) (R.max_corner g.now)) f.new result }
{
    write_kind(f, &Rect(g))
}

/// Writes a triangle as a polygon of its three corners and the first again.
///
/// # Errors
/// As of [`write_point`], with the first corner that is too short.
pub fn write_triangle<W: TextSink, Y: TriangleTrait>(f: &mut W, g: &Y) -> Result<(), Error>
    ensures { Writes W.sink Y.T.is_value Y.T.num f.old
        (Shape.triangle (Y.dimension g.now) (Y.first_corner g.now) (Y.second_corner g.now) (Y.third_corner g.now))
        f.new result }
{
    write_kind(f, &Triangle(g))
}

/// Writes a line as a line string of its two ends.
///
/// # Errors
/// As of [`write_point`], with the first end that is too short.
pub fn write_line<W: TextSink, L: LineTrait>(f: &mut W, g: &L) -> Result<(), Error>
    ensures { Writes W.sink L.T.is_value L.T.num f.old (Shape.line (L.dimension g.now) (L.from g.now) (L.to g.now))
        f.new result }
{
    write_kind(f, &Line(g))
}
