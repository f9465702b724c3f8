//! Polygons.
ghost use Rattle.std.specs.Prelude.{◌≡◌, [], IfOk, Some};
ghost use Rattle.std.specs.Iterator.{IsFinite};
ghost use Rattle.std.specs.Iterator.Runs.{WholeRun};

use crate::canonical::{UnderHeader, put_each_under};
use crate::linestring::LineString;
use std::alloc::{AllocError, Global};
use std::marker::Model;
use wkt_access::Dimension;
use wkt_flat::copies::{CopiedPart, copies};

/// A polygon: its rings in order, the first of them the exterior, and the dimension of the header.
#[derive(Debug, Drop)]
pub struct Polygon<T> {
    rings: Vec<LineString<T>>,
    dim: Dimension,
}

impl<T> Model for Polygon<T> {
    ghost use Rattle.wkt_types.specs.Held.{Held};
    ghost use Rattle.wkt_types.specs.declared.coord.Coord.{Coord};

    ghost Value = { Held (Held (Coord T)) };

    ghost view = { λ x. record { parts = x.rings.items; dim = x.dim } };
}

impl<T> Polygon<T> {
    ghost use Rattle.wkt_types.specs.Held.{IsMadeOf};

    /// A polygon of those rings. Their dimensions aren't compared with its own.
    pub fn new(rings: Vec<LineString<T>>, dim: Dimension) -> Self
        ensures rings { result.parts ≡ rings.items }
        ensures dim { result.dim ≡ dim }
    {
        Polygon { rings, dim }
    }

    /// A polygon without rings. It takes no memory.
    pub fn empty(alloc: Global, dim: Dimension) -> Self
        ensures rings { result.parts ≡ [] }
        ensures dim { result.dim ≡ dim }
    {
        Polygon {
            rings: Vec::new(alloc),
            dim,
        }
    }

    /// The polygon of all rings that the iterator gives, with the first one's dimension: None
    /// where it gives none.
    ///
    /// # Errors
    /// Out of memory.
    pub fn from_rings<I: Iterator<Item = LineString<T>> + Drop>(
        alloc: Global,
        rings: I,
    ) -> Result<Option<Self>, AllocError>
    where
        T: Drop,
        requires can { I.can_next rings }
        requires ends { IsFinite (I.remaining rings) }
        ensures { IfOk result (λ r. WholeRun I.next_gives rings (λ run. IsMadeOf (λ x. x.dim) run.items r)) }
    {
        let rings: Vec<LineString<T>> = rings.collect(alloc)?;
        match rings.first() {
            None => Ok(None),
            Some(first) => {
                let dim = first.dimension();
                Ok(Some(Polygon { rings, dim }))
            }
        }
    }

    /// The dimension of the header.
    pub fn dimension(&self) -> Dimension
        ensures { result ≡ self.now.dim }
    {
        self.dim
    }

    /// The rings in order.
    pub fn rings(&self) -> &[LineString<T>]
        ensures { result.now ≡ self.now.parts }
    {
        self.rings.as_slice()
    }

    /// The rings and the dimension.
    pub fn into_inner(self) -> (Vec<LineString<T>>, Dimension)
        ensures rings { result.0.items ≡ self.parts }
        ensures dim { result.1 ≡ self.dim }
    {
        let Polygon { rings, dim } = self;
        (rings, dim)
    }
}

impl<T: Copy + Drop> Polygon<T> {
    /// An equal polygon.
    ///
    /// # Errors
    /// Out of memory.
    pub fn try_clone(&self, alloc: Global) -> Result<Self, AllocError>
        ensures { IfOk result (λ x. x ≡ self.now) }
    {
        Ok(Polygon {
            rings: copies(alloc, &self.rings)?,
            dim: self.dim,
        })
    }
}

impl<T: Copy + Drop> CopiedPart for Polygon<T> {
    fn copy(&self, alloc: Global) -> Result<Self, AllocError> {
        self.try_clone(alloc)
    }
}

impl<T: Copy + Drop> UnderHeader for Polygon<T> {
    ghost use Rattle.wkt_types.specs.Canonical.{polygon_under};

    ghost under = { polygon_under };

    fn put_under(&mut self, dim: Dimension) {
        let written = match self.rings.first() {
            Some(exterior) => !exterior.coords().is_empty(),
            None => false,
        };
        if !written {
            self.rings.clear();
        }
        put_each_under(&mut self.rings, dim);
        self.dim = dim;
    }
}
