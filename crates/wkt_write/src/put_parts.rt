//! Writes the parts that several kinds share. Each part has no error.
//!
//! A body is what follows a header: the items of a geometry in parentheses, or EMPTY. `k` is how many
//! numbers of each coordinate are written.
#![tactic(auto, using(crate::proofs::FirstErrors::none_at))]

ghost use Rattle.std.specs.Prelude.{◌≡◌, ◌≤◌, ◌<◌, [], ◌∷◌, ◌++◌, length, Some, None, map, codes, option_to_list};
ghost use Rattle.wkt_access.specs.Faults.{coordinates_fault, point_fault, polygon_fault, first_fault};
ghost use Rattle.wkt_access.specs.Shapes.{rings_of};
ghost use Rattle.wkt_write.specs.Pieces.{before, each_after, has_none, opening, closing, gap, cut_coordinate, cut_coordinates, cut_point, cut_polygon, two_coordinates_text, triangle_text, rect_corner_text, rect_ring_text};
ghost use Rattle.wkt_access.specs.Texts.{separated, listed, suffix};
ghost use Rattle.wkt_num.specs.Sink.{Puts};

use crate::items::{Coords, Interiors, put_body, put_following};
use std::fmt;
use wkt_access::{
    CoordTrait, Dimension, LineStringTrait, LineTrait, PointTrait, PolygonTrait, TriangleTrait,
};
use wkt_num::{TextSink, WktNum};

/// Writes what stands before the item at place `i`: a separator, and nothing before the first.
pub(crate) fn put_separator<W: TextSink>(f: &mut W, separator: &str, i: usize) -> fmt::Result
    ensures { Puts W.sink f.old (before separator.now i) f.new result }
{
    if i == 0 {
        return Ok(());
    }
    f.write_str(separator)
}

/// Writes what begins a body: EMPTY, or a parenthesis.
pub(crate) fn put_opening<W: TextSink>(f: &mut W, is_empty: bool) -> fmt::Result
    ensures { Puts W.sink f.old (opening is_empty) f.new result }
{
    if is_empty {
        return f.write_str("EMPTY");
    }
    f.write_str("(")
}

/// Writes what ends a body: nothing after EMPTY, else a parenthesis.
pub(crate) fn put_closing<W: TextSink>(f: &mut W, is_empty: bool) -> fmt::Result
    ensures { Puts W.sink f.old (closing is_empty) f.new result }
{
    if is_empty {
        return Ok(());
    }
    f.write_str(")")
}

/// Writes the first `k` numbers of a coordinate, with spaces between them.
pub(crate) fn put_coord<W: TextSink, C: CoordTrait>(f: &mut W, c: &C, k: usize) -> fmt::Result
    requires { k ≤ length (C.numbers c.now) }
    ensures { Puts W.sink f.old (cut_coordinate C.T.num k (C.numbers c.now)) f.new result }
{
    // Most coordinates are x and y alone, which take no loop.
    if k == 2 {
        return put_rect_corner(f, c, c);
    }
    put_numbers(f, c, k)
}

/// Writes the first `k` numbers of a coordinate, one after the other.
#[inline(never)]
fn put_numbers<W: TextSink, C: CoordTrait>(f: &mut W, c: &C, k: usize) -> fmt::Result
    requires { k ≤ length (C.numbers c.now) }
    ensures { Puts W.sink f.old (cut_coordinate C.T.num k (C.numbers c.now)) f.new result }
{
    for n in 0..k {
        put_separator(f, " ", n)?;
        c.nth(n).write_number(f)?;
    }
    Ok(())
}

/// Writes the body of a line string, which is also the text of a ring.
pub(crate) fn put_coords<W: TextSink, L: LineStringTrait>(f: &mut W, l: &L, k: usize) -> fmt::Result
    requires { coordinates_fault k (L.coordinates l.now) ≡ None }
    ensures { Puts W.sink f.old (cut_coordinates L.T.num k (L.coordinates l.now)) f.new result }
{
    put_body(f, &Coords(l), k)
}

/// Writes the body of a polygon: its exterior and then its interiors, or EMPTY without an exterior.
pub(crate) fn put_polygon_body<W: TextSink, Y: PolygonTrait>(
    f: &mut W,
    y: &Y,
    k: usize,
) -> fmt::Result
    requires { polygon_fault k (Y.polygon y.now) ≡ None }
    ensures { Puts W.sink f.old (cut_polygon Y.T.num k (Y.polygon y.now)) f.new result }
{
    match y.exterior() {
        None => put_opening(f, true),
        Some(exterior) => {
            if exterior.num_coords() == 0 {
                return put_opening(f, true);
            }
            put_opening(f, false)?;
            put_coords(f, exterior, k)?;
            put_following(f, &Interiors(y), k)?;
            put_closing(f, false)
        }
    }
}

/// Writes the body of a point, which is also the text of a member of a multipoint.
pub(crate) fn put_point_body<W: TextSink, P: PointTrait>(f: &mut W, p: &P, k: usize) -> fmt::Result
    requires { point_fault k (P.coordinate p.now) ≡ None }
    ensures { Puts W.sink f.old (cut_point P.T.num k (P.coordinate p.now)) f.new result }
{
    match p.coord() {
        None => put_opening(f, true),
        Some(c) => {
            put_opening(f, false)?;
            put_coord(f, c, k)?;
            put_closing(f, false)
        }
    }
}

/// What a header says of its dimension.
fn suffix_of(d: Dimension) -> &'static str
    ensures { result.now ≡ suffix d }
{
    match d {
        Dimension::XY => "",
        Dimension::XYZ => " Z",
        Dimension::XYM => " M",
        Dimension::XYZM => " ZM",
    }
}

/// Writes what a header says of its dimension, which is nothing for XY.
fn put_suffix<W: TextSink>(f: &mut W, d: Dimension) -> fmt::Result
    ensures { Puts W.sink f.old (suffix d) f.new result }
{
    if let Dimension::XY = d {
        return Ok(());
    }
    f.write_str(suffix_of(d))
}

/// Writes the space that stands before EMPTY.
fn put_gap<W: TextSink>(f: &mut W, is_empty: bool) -> fmt::Result
    ensures { Puts W.sink f.old (gap is_empty) f.new result }
{
    if is_empty {
        return f.write_str(" ");
    }
    Ok(())
}

/// Writes a header: a kind word and a dimension, and a space where EMPTY follows.
pub(crate) fn put_header<W: TextSink>(
    f: &mut W,
    word: &str,
    d: Dimension,
    is_empty: bool,
) -> fmt::Result
    ensures { Puts W.sink f.old (word.now ++ (suffix d ++ gap is_empty)) f.new result }
{
    f.write_str(word)?;
    put_suffix(f, d)?;
    put_gap(f, is_empty)
}

/// Whether a point is empty.
pub(crate) fn has_no_coord<P: PointTrait>(p: &P) -> bool
    ensures { result ≡ has_none (option_to_list (P.coordinate p.now)) }
{
    match p.coord() {
        None => true,
        Some(_) => false,
    }
}

/// Whether none of a polygon's rings is written: it has no exterior, or an empty one.
pub(crate) fn has_no_rings<Y: PolygonTrait>(y: &Y) -> bool
    ensures { result ≡ has_none (rings_of (Y.polygon y.now)) }
{
    match y.exterior() {
        None => true,
        Some(exterior) => exterior.num_coords() == 0,
    }
}

/// Writes two coordinates with a comma between them.
fn put_two_coords<W: TextSink, C: CoordTrait>(f: &mut W, a: &C, b: &C, k: usize) -> fmt::Result
    requires a { k ≤ length (C.numbers a.now) }
    requires b { k ≤ length (C.numbers b.now) }
    ensures { Puts W.sink f.old (two_coordinates_text C.T.num k (C.numbers a.now) (C.numbers b.now)) f.new result }
{
    put_coord(f, a, k)?;
    f.write_str(",")?;
    put_coord(f, b, k)
}

/// Writes the x of one coordinate and the y of another.
#[inline(always)]
fn put_rect_corner<W: TextSink, C: CoordTrait>(f: &mut W, a: &C, b: &C) -> fmt::Result
    ensures { Puts W.sink f.old (rect_corner_text C.T.num (C.numbers a.now) (C.numbers b.now)) f.new result }
{
    let x = a.x();
    let y = b.y();
    x.write_number(f)?;
    f.write_str(" ")?;
    y.write_number(f)
}

/// Writes the coordinates of the ring of a rectangle.
pub(crate) fn put_rect_ring<W: TextSink, C: CoordTrait>(f: &mut W, min: &C, max: &C) -> fmt::Result
    ensures { Puts W.sink f.old (rect_ring_text C.T.num (C.numbers min.now) (C.numbers max.now)) f.new result }
{
    put_rect_corner(f, max, min)?;
    f.write_str(",")?;
    put_rect_corner(f, max, max)?;
    f.write_str(",")?;
    put_rect_corner(f, min, max)?;
    f.write_str(",")?;
    put_rect_corner(f, min, min)?;
    f.write_str(",")?;
    put_rect_corner(f, max, min)
}

/// Writes the body of a line, which is that of a line string.
pub(crate) fn put_line_body<W: TextSink, L: LineTrait>(f: &mut W, l: &L, k: usize) -> fmt::Result
    requires { coordinates_fault k (L.from l.now ∷ L.to l.now ∷ []) ≡ None }
    ensures { Puts W.sink f.old
        (codes "(" ++ (two_coordinates_text L.T.num k (L.from l.now) (L.to l.now) ++ codes ")")) f.new result }
{
    f.write_str("(")?;
    put_two_coords(f, l.start(), l.end(), k)?;
    f.write_str(")")
}

/// Writes the body of a triangle: as that of a polygon, its three corners and the first again.
pub(crate) fn put_triangle_body<W: TextSink, Y: TriangleTrait>(
    f: &mut W,
    y: &Y,
    k: usize,
) -> fmt::Result
    requires { coordinates_fault k (Y.first_corner y.now ∷ Y.second_corner y.now ∷ Y.third_corner y.now ∷ []) ≡ None }
    ensures { Puts W.sink f.old
        (triangle_text Y.T.num k (Y.first_corner y.now) (Y.second_corner y.now) (Y.third_corner y.now)) f.new result }
{
    f.write_str("((")?;
    put_two_coords(f, y.first(), y.second(), k)?;
    f.write_str(",")?;
    put_two_coords(f, y.third(), y.first(), k)?;
    f.write_str("))")
}
