//! Geometries of any kind, and collections of them.
ghost use Rattle.std.specs.Prelude.{◌≡◌, IfOk, OnOk, map, ◌++◌, ◌∷◌, []};
ghost use Rattle.std.specs.Option.{option_map};
ghost use Rattle.std.specs.Iterator.{IsFinite};
ghost use Rattle.std.specs.Iterator.Runs.{WholeRun};
ghost use Rattle.wkt_types.specs.Tree.{tree, collection_tree, members, no_trees, collection, collected, tree_dim, point, line_string, polygon, multi_point, multi_line_string, multi_polygon};

use crate::linestring::LineString;
use crate::multilinestring::MultiLineString;
use crate::multipoint::MultiPoint;
use crate::multipolygon::MultiPolygon;
use crate::point::Point;
use crate::polygon::Polygon;
use std::alloc::{AllocError, Global};
use wkt_access::Dimension;
use wkt_flat::copies::{push_copy_of, push_filled};
use wkt_flat::dropping::drop_all;

/// A collection: geometries in order, each with its own dimension, and the dimension of the header.
#[cycle(wkt)]
#[derive(Debug)]
pub struct GeometryCollection<T> {
    pub(crate) geometries: Vec<Wkt<T>>,
    pub(crate) dim: Dimension,
}

/// A geometry of any kind.
#[cycle(wkt)]
#[derive(Debug, Drop)]
pub enum Wkt<T> {
    /// A coordinate, or none: `POINT`.
    Point(Point<T>),
    /// Coordinates in order: `LINESTRING`.
    LineString(LineString<T>),
    /// Rings, the exterior first: `POLYGON`.
    Polygon(Polygon<T>),
    /// Points in order: `MULTIPOINT`.
    MultiPoint(MultiPoint<T>),
    /// Line strings in order: `MULTILINESTRING`.
    MultiLineString(MultiLineString<T>),
    /// Polygons in order: `MULTIPOLYGON`.
    MultiPolygon(MultiPolygon<T>),
    /// Geometries in order, each with a header of its own: `GEOMETRYCOLLECTION`.
    GeometryCollection(GeometryCollection<T>),
}

impl<T: Drop> Drop for GeometryCollection<T> {
    // By a loop, so that nesting takes no stack.
    fn drop(self) {
        let GeometryCollection { geometries, dim: _ } = self;
        drop_all(geometries);
    }
}

impl<T> GeometryCollection<T> {
    /// A collection of those geometries. Their dimensions aren't compared with its own.
    pub fn new(geometries: Vec<Wkt<T>>, dim: Dimension) -> Self
        ensures { collection_tree result ≡ collection (members geometries.items) dim }
    {
        GeometryCollection { geometries, dim }
    }

    /// A collection without geometries. It takes no memory.
    pub fn empty(alloc: Global, dim: Dimension) -> Self
        ensures { collection_tree result ≡ collection no_trees dim }
    {
        GeometryCollection {
            geometries: Vec::new(alloc),
            dim,
        }
    }

    /// The collection of all geometries that the iterator gives, with the first one's dimension:
    /// None where it gives none.
    ///
    /// # Errors
    /// Out of memory.
    pub fn from_geometries<I: Iterator<Item = Wkt<T>> + Drop>(
        alloc: Global,
        geometries: I,
    ) -> Result<Option<Self>, AllocError>
    where
        T: Drop,
        requires can { I.can_next geometries }
        requires ends { IsFinite (I.remaining geometries) }
        ensures { IfOk result (λ r. WholeRun I.next_gives geometries
            (λ run. option_map collection_tree r ≡ collected (map tree run.items))) }
    {
        let geometries: Vec<Wkt<T>> = geometries.collect(alloc)?;
        match geometries.first() {
            None => Ok(None),
            Some(first) => {
                let dim = first.dimension();
                Ok(Some(GeometryCollection::new(geometries, dim)))
            }
        }
    }

    /// The dimension of the header.
    pub fn dimension(&self) -> Dimension
        ensures { result ≡ tree_dim (collection_tree self.now) }
    {
        self.dim
    }

    /// The geometries in order.
    pub fn geometries(&self) -> &[Wkt<T>]
        ensures { collection_tree self.now ≡ collection (members result.now) (tree_dim (collection_tree self.now)) }
    {
        self.geometries.as_slice()
    }

    /// The geometries and the dimension.
    pub fn into_inner(self) -> (Vec<Wkt<T>>, Dimension)
        ensures { collection_tree self ≡ collection (members result.0.items) result.1 }
    {
        let GeometryCollection { geometries, dim } = self;
        (geometries, dim)
    }
}

impl<T> Wkt<T> {
    /// The dimension of the header.
    pub fn dimension(&self) -> Dimension
        ensures { result ≡ tree_dim (tree self.now) }
    {
        match self {
            Wkt::Point(p) => p.dimension(),
            Wkt::LineString(l) => l.dimension(),
            Wkt::Polygon(y) => y.dimension(),
            Wkt::MultiPoint(m) => m.dimension(),
            Wkt::MultiLineString(m) => m.dimension(),
            Wkt::MultiPolygon(m) => m.dimension(),
            Wkt::GeometryCollection(c) => c.dimension(),
        }
    }
}

// Adds a copy of a geometry. Parts are copied and added in functions that aren't inlined, so that a level of nesting
// takes little stack.
#[cycle(copy)]
fn push_copy<T: Copy + Drop>(
    w: &Wkt<T>,
    alloc: Global,
    copies: &mut Vec<Wkt<T>>,
) -> Result<(), AllocError>
    ensures { OnOk result (map tree copies.new.items ≡ map tree copies.old.items ++ tree w.now ∷ []) }
{
    match w {
        Wkt::Point(p) => push_copy_of(p, alloc, copies),
        Wkt::LineString(l) => push_copy_of(l, alloc, copies),
        Wkt::Polygon(y) => push_copy_of(y, alloc, copies),
        Wkt::MultiPoint(m) => push_copy_of(m, alloc, copies),
        Wkt::MultiLineString(m) => push_copy_of(m, alloc, copies),
        Wkt::MultiPolygon(m) => push_copy_of(m, alloc, copies),
        Wkt::GeometryCollection(c) => {
            let mut geometries = Vec::with_capacity(alloc, c.geometries.len())?;
            let filled = push_copies(&c.geometries, alloc, &mut geometries);
            push_filled(filled, GeometryCollection::new(geometries, c.dim), copies)
        }
    }
}

#[cycle(copy)]
fn push_copies<T: Copy + Drop>(
    all: &Vec<Wkt<T>>,
    alloc: Global,
    copies: &mut Vec<Wkt<T>>,
) -> Result<(), AllocError>
    ensures { OnOk result (map tree copies.new.items ≡ map tree copies.old.items ++ map tree all.now.items) }
{
    for w in all {
        push_copy(w, alloc, copies)?;
    }
    Ok(())
}

impl<T: Copy + Drop> Wkt<T> {
    /// An equal geometry.
    ///
    /// # Errors
    /// Out of memory.
    pub fn try_clone(&self, alloc: Global) -> Result<Self, AllocError>
        ensures { IfOk result (λ w. tree w ≡ tree self.now) }
    {
        match self {
            Wkt::Point(p) => Ok(Wkt::Point(*p)),
            Wkt::LineString(l) => Ok(Wkt::LineString(l.try_clone(alloc)?)),
            Wkt::Polygon(y) => Ok(Wkt::Polygon(y.try_clone(alloc)?)),
            Wkt::MultiPoint(m) => Ok(Wkt::MultiPoint(m.try_clone(alloc)?)),
            Wkt::MultiLineString(m) => Ok(Wkt::MultiLineString(m.try_clone(alloc)?)),
            Wkt::MultiPolygon(m) => Ok(Wkt::MultiPolygon(m.try_clone(alloc)?)),
            Wkt::GeometryCollection(c) => Ok(Wkt::GeometryCollection(c.try_clone(alloc)?)),
        }
    }
}

impl<T: Copy + Drop> GeometryCollection<T> {
    /// An equal collection.
    ///
    /// # Errors
    /// Out of memory.
    pub fn try_clone(&self, alloc: Global) -> Result<Self, AllocError>
        ensures { IfOk result (λ c. collection_tree c ≡ collection_tree self.now) }
    {
        let mut geometries = Vec::with_capacity(alloc, self.geometries.len())?;
        push_copies(&self.geometries, alloc, &mut geometries)?;
        Ok(GeometryCollection::new(geometries, self.dim))
    }
}

impl<T> From<Point<T>> for Wkt<T> {
    ghost from_gives = { λ x r. tree r ≡ point x };

    fn from(x: Point<T>) -> Self {
        Wkt::Point(x)
    }
}

impl<T> From<LineString<T>> for Wkt<T> {
    ghost from_gives = { λ x r. tree r ≡ line_string x };

    fn from(x: LineString<T>) -> Self {
        Wkt::LineString(x)
    }
}

impl<T> From<Polygon<T>> for Wkt<T> {
    ghost from_gives = { λ x r. tree r ≡ polygon x };

    fn from(x: Polygon<T>) -> Self {
        Wkt::Polygon(x)
    }
}

impl<T> From<MultiPoint<T>> for Wkt<T> {
    ghost from_gives = { λ x r. tree r ≡ multi_point x };

    fn from(x: MultiPoint<T>) -> Self {
        Wkt::MultiPoint(x)
    }
}

impl<T> From<MultiLineString<T>> for Wkt<T> {
    ghost from_gives = { λ x r. tree r ≡ multi_line_string x };

    fn from(x: MultiLineString<T>) -> Self {
        Wkt::MultiLineString(x)
    }
}

impl<T> From<MultiPolygon<T>> for Wkt<T> {
    ghost from_gives = { λ x r. tree r ≡ multi_polygon x };

    fn from(x: MultiPolygon<T>) -> Self {
        Wkt::MultiPolygon(x)
    }
}

impl<T> From<GeometryCollection<T>> for Wkt<T> {
    ghost from_gives = { λ x r. tree r ≡ collection_tree x };

    fn from(x: GeometryCollection<T>) -> Self {
        Wkt::GeometryCollection(x)
    }
}
