//! Geometries of any kind, and collections of them.
ghost use Rattle.std.specs.Prelude.{◌≡◌, IfOk, OnOk, map, ◌++◌, ◌∷◌, []};
ghost use Rattle.wkt_flat.specs.Tree.{flat_tree, flat_trees, flat_members, collection, point, line, line_string, polygon, multi_point, multi_line_string, multi_polygon, rect, triangle};

use crate::copies::{push_copy_of, push_filled};
use crate::dropping::{Nested, drop_all};
use crate::line::Line;
use crate::lists::{LineString, MultiLineString, MultiPoint, MultiPolygon};
use crate::point::Point;
use crate::polygon::Polygon;
use crate::rect::Rect;
use crate::triangle::Triangle;
use std::alloc::{AllocError, Global};

/// A collection: geometries in order, which may be collections too. It may be empty.
///
/// It has a custom drop, so that nesting takes no stack. So no pattern of another crate takes it
/// apart: [`GeometryCollection::into_inner`] returns its geometries.
#[cycle(geometry)]
#[derive(Debug)]
pub struct GeometryCollection<T>(pub Vec<Geometry<T>>);

/// A geometry of one of ten kinds.
#[cycle(geometry)]
#[derive(Debug, Drop)]
pub enum Geometry<T> {
    /// A point.
    Point(Point<T>),
    /// A line between two coordinates.
    Line(Line<T>),
    /// A line string.
    LineString(LineString<T>),
    /// A polygon.
    Polygon(Polygon<T>),
    /// A list of points.
    MultiPoint(MultiPoint<T>),
    /// A list of line strings.
    MultiLineString(MultiLineString<T>),
    /// A list of polygons.
    MultiPolygon(MultiPolygon<T>),
    /// A collection of geometries.
    GeometryCollection(GeometryCollection<T>),
    /// A rectangle.
    Rect(Rect<T>),
    /// A triangle.
    Triangle(Triangle<T>),
}

impl<T: Drop> Drop for GeometryCollection<T> {
    // By a loop, so that nesting takes no stack.
    fn drop(self) {
        let GeometryCollection(geometries) = self;
        drop_all(geometries);
    }
}

impl<T: Drop> Nested for Geometry<T> {
    ghost use Rattle.wkt_flat.specs.Tree.{inside, total};

    ghost inside = { inside };

    #[tactic(auto, using(crate::proofs::TreeLemmas::held_inside))]
    fn of_members(members: Vec<Self>) -> Self
        ensures { inside result ≡ total inside members.items }
    {
        Geometry::GeometryCollection(GeometryCollection::new_from(members))
    }

    #[tactic(auto, using(crate::proofs::TreeLemmas::held_inside))]
    fn into_members(self) -> Option<Vec<Self>> {
        match self {
            Geometry::GeometryCollection(collection) => Some(collection.into_inner()),
            Geometry::Point(_) => None,
            Geometry::Line(_) => None,
            Geometry::LineString(_) => None,
            Geometry::Polygon(_) => None,
            Geometry::MultiPoint(_) => None,
            Geometry::MultiLineString(_) => None,
            Geometry::MultiPolygon(_) => None,
            Geometry::Rect(_) => None,
            Geometry::Triangle(_) => None,
        }
    }
}

impl<T> GeometryCollection<T> {
    /// The collection of those geometries, in their order.
    pub fn new_from(geometries: Vec<Geometry<T>>) -> Self
        ensures { flat_trees result ≡ flat_members geometries.items }
    {
        GeometryCollection(geometries)
    }

    /// The geometries in order.
    pub fn geometries(&self) -> &[Geometry<T>]
        ensures { flat_trees self.now ≡ flat_members result.now }
    {
        self.0.as_slice()
    }

    /// The geometries in order, taken out of the collection.
    pub fn into_inner(self) -> Vec<Geometry<T>>
        ensures { flat_trees self ≡ flat_members result.items }
    {
        let GeometryCollection(geometries) = self;
        geometries
    }
}

// Adds a copy of a geometry. Parts are copied and added in functions that aren't inlined, so that a level of nesting
// takes little stack.
#[cycle(copy)]
fn push_copy<T: Copy + Drop>(
    g: &Geometry<T>,
    alloc: Global,
    copies: &mut Vec<Geometry<T>>,
) -> Result<(), AllocError>
    ensures { OnOk result (map flat_tree copies.new.items ≡ map flat_tree copies.old.items ++ flat_tree g.now ∷ []) }
{
    match g {
        Geometry::Point(p) => push_copy_of(p, alloc, copies),
        Geometry::Line(l) => push_copy_of(l, alloc, copies),
        Geometry::LineString(l) => push_copy_of(l, alloc, copies),
        Geometry::Polygon(y) => push_copy_of(y, alloc, copies),
        Geometry::MultiPoint(m) => push_copy_of(m, alloc, copies),
        Geometry::MultiLineString(m) => push_copy_of(m, alloc, copies),
        Geometry::MultiPolygon(m) => push_copy_of(m, alloc, copies),
        Geometry::Rect(r) => push_copy_of(r, alloc, copies),
        Geometry::Triangle(t) => push_copy_of(t, alloc, copies),
        Geometry::GeometryCollection(c) => {
            let mut geometries = Vec::with_capacity(alloc, c.0.len())?;
            let filled = push_copies(&c.0, alloc, &mut geometries);
            push_filled(filled, GeometryCollection::new_from(geometries), copies)
        }
    }
}

#[cycle(copy)]
fn push_copies<T: Copy + Drop>(
    all: &Vec<Geometry<T>>,
    alloc: Global,
    copies: &mut Vec<Geometry<T>>,
) -> Result<(), AllocError>
    ensures { OnOk result
        (map flat_tree copies.new.items ≡ map flat_tree copies.old.items ++ map flat_tree all.now.items) }
{
    for g in all {
        push_copy(g, alloc, copies)?;
    }
    Ok(())
}

impl<T: Copy + Drop> Geometry<T> {
    /// An equal geometry, with all that it holds.
    ///
    /// # Errors
    /// Out of memory.
    pub fn try_clone(&self, alloc: Global) -> Result<Self, AllocError>
        ensures { IfOk result (λ g. flat_tree g ≡ flat_tree self.now) }
    {
        match self {
            Geometry::Point(p) => Ok(Geometry::Point(*p)),
            Geometry::Line(l) => Ok(Geometry::Line(*l)),
            Geometry::LineString(l) => Ok(Geometry::LineString(l.try_clone(alloc)?)),
            Geometry::Polygon(y) => Ok(Geometry::Polygon(y.try_clone(alloc)?)),
            Geometry::MultiPoint(m) => Ok(Geometry::MultiPoint(m.try_clone(alloc)?)),
            Geometry::MultiLineString(m) => Ok(Geometry::MultiLineString(m.try_clone(alloc)?)),
            Geometry::MultiPolygon(m) => Ok(Geometry::MultiPolygon(m.try_clone(alloc)?)),
            Geometry::Rect(r) => Ok(Geometry::Rect(*r)),
            Geometry::Triangle(t) => Ok(Geometry::Triangle(*t)),
            Geometry::GeometryCollection(c) => {
                Ok(Geometry::GeometryCollection(c.try_clone(alloc)?))
            }
        }
    }
}

impl<T: Copy + Drop> GeometryCollection<T> {
    /// An equal collection, with all that it holds.
    ///
    /// # Errors
    /// Out of memory.
    pub fn try_clone(&self, alloc: Global) -> Result<Self, AllocError>
        ensures { IfOk result (λ c. flat_trees c ≡ flat_trees self.now) }
    {
        let mut geometries = Vec::with_capacity(alloc, self.0.len())?;
        push_copies(&self.0, alloc, &mut geometries)?;
        Ok(GeometryCollection(geometries))
    }
}

impl<T> From<Point<T>> for Geometry<T> {
    ghost from_gives = { λ x r. flat_tree r ≡ point x };

    fn from(x: Point<T>) -> Self {
        Geometry::Point(x)
    }
}

impl<T> From<Line<T>> for Geometry<T> {
    ghost from_gives = { λ x r. flat_tree r ≡ line x };

    fn from(x: Line<T>) -> Self {
        Geometry::Line(x)
    }
}

impl<T> From<LineString<T>> for Geometry<T> {
    ghost from_gives = { λ x r. flat_tree r ≡ line_string x };

    fn from(x: LineString<T>) -> Self {
        Geometry::LineString(x)
    }
}

impl<T> From<Polygon<T>> for Geometry<T> {
    ghost from_gives = { λ x r. flat_tree r ≡ polygon x };

    fn from(x: Polygon<T>) -> Self {
        Geometry::Polygon(x)
    }
}

impl<T> From<MultiPoint<T>> for Geometry<T> {
    ghost from_gives = { λ x r. flat_tree r ≡ multi_point x };

    fn from(x: MultiPoint<T>) -> Self {
        Geometry::MultiPoint(x)
    }
}

impl<T> From<MultiLineString<T>> for Geometry<T> {
    ghost from_gives = { λ x r. flat_tree r ≡ multi_line_string x };

    fn from(x: MultiLineString<T>) -> Self {
        Geometry::MultiLineString(x)
    }
}

impl<T> From<MultiPolygon<T>> for Geometry<T> {
    ghost from_gives = { λ x r. flat_tree r ≡ multi_polygon x };

    fn from(x: MultiPolygon<T>) -> Self {
        Geometry::MultiPolygon(x)
    }
}

impl<T> From<GeometryCollection<T>> for Geometry<T> {
    ghost from_gives = { λ x r. flat_tree r ≡ collection (flat_trees x) };

    fn from(x: GeometryCollection<T>) -> Self {
        Geometry::GeometryCollection(x)
    }
}

impl<T> From<Rect<T>> for Geometry<T> {
    ghost from_gives = { λ x r. flat_tree r ≡ rect x };

    fn from(x: Rect<T>) -> Self {
        Geometry::Rect(x)
    }
}

impl<T> From<Triangle<T>> for Geometry<T> {
    ghost from_gives = { λ x r. flat_tree r ≡ triangle x };

    fn from(x: Triangle<T>) -> Self {
        Geometry::Triangle(x)
    }
}
