//! The types that are lists: line strings, and lists of points, of line strings and of polygons.
ghost use Rattle.std.specs.Prelude.{◌≡◌, IfOk};

use crate::coord::Coord;
use crate::copies::{CopiedPart, copies};
use crate::point::Point;
use crate::polygon::Polygon;
use std::alloc::{AllocError, Global};
use std::marker::Model;

/// A line string: coordinates in order, by itself or as a ring of a polygon. It may be empty.
#[derive(Debug, Drop)]
pub struct LineString<T>(pub Vec<Coord<T>>);

impl<T> Model for LineString<T> {
    ghost use Rattle.std.specs.Prelude.{List};
    ghost use Rattle.wkt_flat.specs.declared.coord.Coord.{Coord};

    ghost Value = { List (Coord T) };

    ghost view = { λ l. l.0.items };
}

impl<T> LineString<T> {
    /// The line string of those coordinates, in their order.
    pub fn new(all: Vec<Coord<T>>) -> Self
        ensures { result ≡ all.items }
    {
        LineString(all)
    }
}

impl<T: Copy + Drop> LineString<T> {
    /// An equal line string.
    ///
    /// # Errors
    /// Out of memory.
    pub fn try_clone(&self, alloc: Global) -> Result<Self, AllocError>
        ensures { IfOk result (λ l. l ≡ self.now) }
    {
        Ok(LineString(copies(alloc, &self.0)?))
    }
}

impl<T: Copy + Drop> CopiedPart for LineString<T> {
    fn copy(&self, alloc: Global) -> Result<Self, AllocError> {
        self.try_clone(alloc)
    }
}

/// Points in order, as one geometry. The list may be empty.
#[derive(Debug, Drop)]
pub struct MultiPoint<T>(pub Vec<Point<T>>);

impl<T> Model for MultiPoint<T> {
    ghost use Rattle.std.specs.Prelude.{List};
    ghost use Rattle.wkt_flat.specs.declared.point.Point.{Point};

    ghost Value = { List (Point T) };

    ghost view = { λ l. l.0.items };
}

impl<T> MultiPoint<T> {
    /// Those points, in their order.
    pub fn new(all: Vec<Point<T>>) -> Self
        ensures { result ≡ all.items }
    {
        MultiPoint(all)
    }
}

impl<T: Copy + Drop> MultiPoint<T> {
    /// An equal list of points.
    ///
    /// # Errors
    /// Out of memory.
    pub fn try_clone(&self, alloc: Global) -> Result<Self, AllocError>
        ensures { IfOk result (λ m. m ≡ self.now) }
    {
        Ok(MultiPoint(copies(alloc, &self.0)?))
    }
}

impl<T: Copy + Drop> CopiedPart for MultiPoint<T> {
    fn copy(&self, alloc: Global) -> Result<Self, AllocError> {
        self.try_clone(alloc)
    }
}

/// Line strings in order, as one geometry. The list may be empty.
#[derive(Debug, Drop)]
pub struct MultiLineString<T>(pub Vec<LineString<T>>);

impl<T> Model for MultiLineString<T> {
    ghost use Rattle.std.specs.Prelude.{List};
    ghost use Rattle.wkt_flat.specs.declared.coord.Coord.{Coord};

    ghost Value = { List (List (Coord T)) };

    ghost view = { λ l. l.0.items };
}

impl<T> MultiLineString<T> {
    /// Those line strings, in their order.
    pub fn new(all: Vec<LineString<T>>) -> Self
        ensures { result ≡ all.items }
    {
        MultiLineString(all)
    }
}

impl<T: Copy + Drop> MultiLineString<T> {
    /// An equal list of line strings.
    ///
    /// # Errors
    /// Out of memory.
    pub fn try_clone(&self, alloc: Global) -> Result<Self, AllocError>
        ensures { IfOk result (λ m. m ≡ self.now) }
    {
        Ok(MultiLineString(copies(alloc, &self.0)?))
    }
}

impl<T: Copy + Drop> CopiedPart for MultiLineString<T> {
    fn copy(&self, alloc: Global) -> Result<Self, AllocError> {
        self.try_clone(alloc)
    }
}

/// Polygons in order, as one geometry. The list may be empty.
#[derive(Debug, Drop)]
pub struct MultiPolygon<T>(pub Vec<Polygon<T>>);

impl<T> Model for MultiPolygon<T> {
    ghost use Rattle.std.specs.Prelude.{List};
    ghost use Rattle.wkt_flat.specs.declared.coord.Coord.{Coord};
    ghost use Rattle.wkt_flat.specs.Rings.{Rings};

    ghost Value = { List (Rings (Coord T)) };

    ghost view = { λ l. l.0.items };
}

impl<T> MultiPolygon<T> {
    /// Those polygons, in their order.
    pub fn new(all: Vec<Polygon<T>>) -> Self
        ensures { result ≡ all.items }
    {
        MultiPolygon(all)
    }
}

impl<T: Copy + Drop> MultiPolygon<T> {
    /// An equal list of polygons.
    ///
    /// # Errors
    /// Out of memory.
    pub fn try_clone(&self, alloc: Global) -> Result<Self, AllocError>
        ensures { IfOk result (λ m. m ≡ self.now) }
    {
        Ok(MultiPolygon(copies(alloc, &self.0)?))
    }
}

impl<T: Copy + Drop> CopiedPart for MultiPolygon<T> {
    fn copy(&self, alloc: Global) -> Result<Self, AllocError> {
        self.try_clone(alloc)
    }
}
