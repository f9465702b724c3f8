//! The `Wkt` of flat values.
ghost use Rattle.std.specs.Prelude.{◌≡◌, ◌++◌, ◌∷◌, ◌+◌, ◌≤◌, [], IfOk, length, map, vec_len, vec_capacity};
ghost use Rattle.wkt_types.specs.Tree as trees;
ghost use Rattle.wkt_flat.specs.Tree.{flat_tree, flat_members};
ghost use Rattle.wkt_convert.specs.Flatten.{IsPieceBack};
ghost use Rattle.wkt_convert.specs.Back.{flat_xy, point_back, line_string_back, polygon_back, back, all_back};

use crate::flat_values::FlatValue;
use crate::parts::{Open, Piece, Turn, turn_after};
use std::alloc::{AllocError, Global};
use wkt_flat as flat;
use wkt_flat::Geometry;
use wkt_num::WktNum;
use wkt_types::{Coord, Dimension, GeometryCollection, LineString, Point, Polygon, Wkt};

// How many coordinates are added at a time.
const MANY: usize = 16;

/// A coordinate without z and m. Its numbers are given by value, so that they go where it is to stand with no copy between.
#[inline(always)]
fn coord<T>(x: T, y: T) -> Coord<T>
    ensures { result ≡ flat_xy (record { x = x; y = y }) }
{
    Coord {
        x,
        y,
        z: None,
        m: None,
    }
}

/// A point.
pub(crate) fn point<T: Copy>(p: flat::Point<T>) -> Point<T>
    ensures { result ≡ point_back p }
{
    Point::new(Some(coord(p.0.x, p.0.y)), Dimension::XY)
}

/// Adds the coordinates without z and m, for which there is room. Each is made where it is to stand.
#[inline(always)]
fn push_coords<T: Copy + Drop>(cs: &[flat::Coord<T>], all: &mut Vec<Coord<T>>)
    requires { vec_len all.old + length cs.now ≤ vec_capacity all.old }
    ensures items { all.new.items ≡ all.old.items ++ map flat_xy cs.now }
    ensures count { vec_len all.new ≡ vec_len all.old + length cs.now }
    ensures room { vec_capacity all.new ≡ vec_capacity all.old }
{
    for c in cs {
        all.push_reserved(coord(c.x, c.y));
    }
}

/// The coordinates without z and m. Most are added many at a time, in a loop of known length, which takes a quarter less.
fn coords<T: Copy + Drop>(alloc: Global, cs: &[flat::Coord<T>]) -> Result<Vec<Coord<T>>, AllocError>
    ensures { IfOk result (λ r. r.items ≡ map flat_xy cs.now) }
{
    let mut all = Vec::with_capacity(alloc, cs.len())?;
    let mut rest = cs;
    'many: while rest.len() >= MANY {
        let (first, others) = rest.split_at(MANY);
        push_coords(first, &mut all);
        rest = others;
    }
    push_coords(rest, &mut all);
    Ok(all)
}

impl<T: Copy + Drop> Turn<Point<T>> for flat::Point<T> {
    ghost turned = { point_back };

    fn turn(&self, _alloc: Global) -> Result<Point<T>, AllocError> {
        Ok(point(*self))
    }
}

impl<T: Copy + Drop> Turn<LineString<T>> for flat::LineString<T> {
    ghost turned = { line_string_back };

    fn turn(&self, alloc: Global) -> Result<LineString<T>, AllocError> {
        Ok(LineString::new(coords(alloc, &self.0)?, Dimension::XY))
    }
}

/// The polygon has no rings where the exterior is empty.
impl<T: Copy + Drop> Turn<Polygon<T>> for flat::Polygon<T> {
    ghost turned = { polygon_back };

    fn turn(&self, alloc: Global) -> Result<Polygon<T>, AllocError> {
        let exterior = self.exterior();
        if exterior.0.is_empty() {
            return Ok(Polygon::empty(alloc, Dimension::XY));
        }
        let mut all = Vec::with_capacity(alloc, self.interiors().len().saturating_add(1))?;
        all.push(exterior.turn(alloc)?)?;
        Ok(Polygon::new(turn_after(alloc, self.interiors(), all)?, Dimension::XY))
    }
}

/// A line from a start to an end.
pub(crate) fn two<T: Copy + Drop>(
    alloc: Global,
    l: &flat::Line<T>,
) -> Result<LineString<T>, AllocError>
    ensures { IfOk result (λ r. r ≡ line_string_back (l.now.start ∷ l.now.end ∷ [])) }
{
    let mut all = Vec::with_capacity(alloc, 2)?;
    all.push(coord(l.start.x, l.start.y))?;
    all.push(coord(l.end.x, l.end.y))?;
    Ok(LineString::new(all, Dimension::XY))
}

/// The `Wkt` of a geometry. A collection is opened, and no more.
// As a part of its callers it moves nothing: a point then costs a third of the instructions.
#[inline(always)]
fn piece_of<'a, T: WktNum>(
    alloc: Global,
    g: &'a Geometry<T>,
) -> Result<Piece<'a, Geometry<T>, Wkt<T>>, AllocError>
    ensures { IfOk result (IsPieceBack (flat_tree g.now)) }
{
    match g {
        Geometry::Point(p) => Ok(Piece::Whole(p.make_wkt(alloc)?)),
        Geometry::Line(l) => Ok(Piece::Whole(l.make_wkt(alloc)?)),
        Geometry::LineString(l) => Ok(Piece::Whole(l.make_wkt(alloc)?)),
        Geometry::Polygon(y) => Ok(Piece::Whole(y.make_wkt(alloc)?)),
        Geometry::MultiPoint(m) => Ok(Piece::Whole(m.make_wkt(alloc)?)),
        Geometry::MultiLineString(m) => Ok(Piece::Whole(m.make_wkt(alloc)?)),
        Geometry::MultiPolygon(m) => Ok(Piece::Whole(m.make_wkt(alloc)?)),
        Geometry::GeometryCollection(c) => Ok(Piece::Members(c.geometries())),
        Geometry::Rect(r) => Ok(Piece::Whole(r.make_wkt(alloc)?)),
        Geometry::Triangle(t) => Ok(Piece::Whole(t.make_wkt(alloc)?)),
    }
}

/// The `Wkt` of a geometry. A point's is made in place: it has no part in what other kinds need.
pub(crate) fn geometry<T: WktNum>(alloc: Global, g: &Geometry<T>) -> Result<Wkt<T>, AllocError>
    ensures { IfOk result (λ w. trees.tree w ≡ back (flat_tree g.now)) }
{
    match g {
        Geometry::Point(p) => Ok(Wkt::Point(point(*p))),
        _ => other(alloc, g),
    }
}

/// A geometry that is no point. Outlined: only this path zeroes the result slot.
#[inline(always)]
fn other<T: WktNum>(alloc: Global, g: &Geometry<T>) -> Result<Wkt<T>, AllocError>
    ensures { IfOk result (λ w. trees.tree w ≡ back (flat_tree g.now)) }
{
    by_kind(alloc, g)
}

/// The `Wkt` of a geometry of any kind.
#[inline(never)]
fn by_kind<T: WktNum>(alloc: Global, g: &Geometry<T>) -> Result<Wkt<T>, AllocError>
    ensures { IfOk result (λ w. trees.tree w ≡ back (flat_tree g.now)) }
{
    match g {
        Geometry::Point(p) => p.make_wkt(alloc),
        Geometry::Line(l) => l.make_wkt(alloc),
        Geometry::LineString(l) => l.make_wkt(alloc),
        Geometry::Polygon(y) => y.make_wkt(alloc),
        Geometry::MultiPoint(m) => m.make_wkt(alloc),
        Geometry::MultiLineString(m) => m.make_wkt(alloc),
        Geometry::MultiPolygon(m) => m.make_wkt(alloc),
        Geometry::GeometryCollection(c) => c.make_wkt(alloc),
        Geometry::Rect(r) => r.make_wkt(alloc),
        Geometry::Triangle(t) => t.make_wkt(alloc),
    }
}

/// The `Wkt` of each geometry.
pub(crate) fn geometries<T: WktNum>(
    alloc: Global,
    gs: &[Geometry<T>],
) -> Result<Vec<Wkt<T>>, AllocError>
    ensures { IfOk result (λ r. trees.members r.items ≡ all_back (flat_members gs.now)) }
{
    // The collections that are open around this one, so that nesting takes no stack.
    let mut opened = Vec::new(alloc);
    let mut rest = gs;
    let mut done = Vec::with_capacity(alloc, gs.len())?;
    loop {
        match rest {
            [next, others @ ..] => match next {
                // Most members of long collections are points: they go past the other kinds.
                Geometry::Point(p) => {
                    done.push(Wkt::Point(point(*p)))?;
                    rest = others;
                }
                _ => match piece_of(alloc, next)? {
                    Piece::Whole(w) => {
                        done.push(w)?;
                        rest = others;
                    }
                    Piece::Members(inner) => {
                        opened.push(Open { rest: others, done })?;
                        rest = inner;
                        done = Vec::with_capacity(alloc, inner.len())?;
                    }
                },
            },
            [] => {
                let Some(outer) = opened.pop() else {
                    return Ok(done);
                };
                let closed = GeometryCollection::new(done, Dimension::XY);
                rest = outer.rest;
                done = outer.done;
                done.push(Wkt::GeometryCollection(closed))?;
            }
        }
    }
}
