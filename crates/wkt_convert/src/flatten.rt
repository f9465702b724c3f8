//! Flat values of what a `Wkt` holds.
ghost use Rattle.std.specs.Prelude.{◌≡◌, ◌++◌, ◌∷◌, [], IfOk, OnOk, map};
ghost use Rattle.wkt_types.specs.Outcome.{xy, Answers};
ghost use Rattle.wkt_types.specs.Tree.{tree, members};
ghost use Rattle.wkt_flat.specs.Tree.{flat_tree, flat_trees};
ghost use Rattle.wkt_flat.specs.Equal.{coord_eq};
ghost use Rattle.wkt_convert.specs.Flatten.{IsPiece, sequence, rings, points, point_or_none, flat, flat_all};

use crate::parts::{Open, Piece, Turn, turn_all};
use std::alloc::{AllocError, Global};
use wkt_flat as flat;
use wkt_flat::Geometry;
use wkt_num::WktNum;
use wkt_types::{ConvertError, Coord, LineString, Point, Polygon, Wkt};

/// Adds one more to a list.
fn push<X: Drop>(x: X, all: &mut Vec<X>) -> Result<(), AllocError>
    ensures { OnOk result (all.new.items ≡ all.old.items ++ x ∷ []) }
{
    all.push(x)?;
    Ok(())
}

/// Without z and m.
impl<T: WktNum> Turn<flat::Coord<T>> for Coord<T> {
    ghost turned = { xy };

    fn turn(&self, _alloc: Global) -> Result<flat::Coord<T>, AllocError> {
        Ok(flat::Coord::from(*self))
    }
}

/// Its coordinates.
impl<T: WktNum> Turn<flat::LineString<T>> for LineString<T> {
    ghost turned = { sequence };

    fn turn(&self, alloc: Global) -> Result<flat::LineString<T>, AllocError> {
        Ok(flat::LineString(turn_all(alloc, self.coords())?))
    }
}

/// The polygon of its rings, which are closed.
impl<T: WktNum> Turn<flat::Polygon<T>> for Polygon<T> {
    ghost turned = { rings (coord_eq T.eq) };

    fn turn(&self, alloc: Global) -> Result<flat::Polygon<T>, AllocError> {
        match self.rings() {
            [] => flat::Polygon::new(alloc, flat::LineString(Vec::new(alloc)), Vec::new(alloc)),
            [exterior, interiors @ ..] => {
                let exterior = exterior.turn(alloc)?;
                let interiors = turn_all(alloc, interiors)?;
                flat::Polygon::new(alloc, exterior, interiors)
            }
        }
    }
}

/// The point of each point; refused where one is empty.
pub(crate) fn all_points<T: WktNum>(
    alloc: Global,
    ps: &[Point<T>],
) -> Result<flat::MultiPoint<T>, ConvertError>
    ensures { Answers (λ m. m) (points ps.now) result }
{
    let mut all = Vec::with_capacity(alloc, ps.len())?;
    for p in ps {
        match p.coord() {
            None => return Err(ConvertError::PointConversionError),
            Some(c) => push(flat::Point(flat::Coord::from(*c)), &mut all)?,
        }
    }
    Ok(flat::MultiPoint(all))
}

/// A point, or an empty multipoint for an empty one.
fn point<T: WktNum>(alloc: Global, p: &Point<T>) -> Geometry<T>
    ensures { flat_tree result ≡ point_or_none p.now.coord }
{
    match p.coord() {
        None => Geometry::MultiPoint(flat::MultiPoint(Vec::new(alloc))),
        Some(c) => Geometry::Point(flat::Point(flat::Coord::from(*c))),
    }
}

/// The flat geometry. A collection is opened, and no more.
// As a part of its callers it moves nothing: a point then costs a third of the instructions.
#[inline(always)]
fn piece_of<'a, T: WktNum>(
    alloc: Global,
    w: &'a Wkt<T>,
) -> Result<Piece<'a, Wkt<T>, Geometry<T>>, ConvertError>
    ensures { IsPiece (coord_eq T.eq) (tree w.now) result }
{
    match w {
        Wkt::Point(p) => Ok(Piece::Whole(point(alloc, p))),
        Wkt::LineString(l) => Ok(Piece::Whole(Geometry::LineString(l.turn(alloc)?))),
        Wkt::Polygon(y) => Ok(Piece::Whole(Geometry::Polygon(y.turn(alloc)?))),
        Wkt::MultiPoint(m) => {
            let points = all_points(alloc, m.points())?;
            Ok(Piece::Whole(Geometry::MultiPoint(points)))
        }
        Wkt::MultiLineString(m) => {
            let lines = flat::MultiLineString(turn_all(alloc, m.line_strings())?);
            Ok(Piece::Whole(Geometry::MultiLineString(lines)))
        }
        Wkt::MultiPolygon(m) => {
            let polygons = flat::MultiPolygon(turn_all(alloc, m.polygons())?);
            Ok(Piece::Whole(Geometry::MultiPolygon(polygons)))
        }
        Wkt::GeometryCollection(c) => Ok(Piece::Members(c.geometries())),
    }
}

/// The flat geometry.
pub(crate) fn geometry<T: WktNum>(alloc: Global, w: &Wkt<T>) -> Result<Geometry<T>, ConvertError>
    ensures { Answers flat_tree (flat (coord_eq T.eq) (tree w.now)) result }
{
    match piece_of(alloc, w)? {
        Piece::Whole(g) => Ok(g),
        Piece::Members(ws) => Ok(Geometry::GeometryCollection(collection(alloc, ws)?)),
    }
}

/// The flat collection of those members.
pub(crate) fn collection<T: WktNum>(
    alloc: Global,
    ws: &[Wkt<T>],
) -> Result<flat::GeometryCollection<T>, ConvertError>
    ensures { Answers flat_trees (flat_all (coord_eq T.eq) (members ws.now)) result }
{
    // The collections that are open around this one, so that nesting takes no stack.
    let mut opened = Vec::new(alloc);
    let mut rest = ws;
    let mut done = Vec::with_capacity(alloc, ws.len())?;
    loop {
        match rest {
            [next, others @ ..] => match next {
                // Most members of long collections are points: they go past the other kinds.
                Wkt::Point(p) => {
                    push(point(alloc, p), &mut done)?;
                    rest = others;
                }
                _ => match piece_of(alloc, next)? {
                    Piece::Whole(g) => {
                        push(g, &mut done)?;
                        rest = others;
                    }
                    Piece::Members(inner) => {
                        push(Open { rest: others, done }, &mut opened)?;
                        rest = inner;
                        done = Vec::with_capacity(alloc, inner.len())?;
                    }
                },
            },
            [] => {
                let closed = flat::GeometryCollection::new_from(done);
                let Some(outer) = opened.pop() else {
                    return Ok(closed);
                };
                rest = outer.rest;
                done = outer.done;
                push(Geometry::GeometryCollection(closed), &mut done)?;
            }
        }
    }
}
