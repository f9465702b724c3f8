//! Multipolygons.
ghost use Rattle.std.specs.Prelude.{◌≡◌, [], IfOk, Some};
ghost use Rattle.std.specs.Iterator.{IsFinite};
ghost use Rattle.std.specs.Iterator.Runs.{WholeRun};

use crate::canonical::{UnderHeader, put_each_under};
use crate::polygon::Polygon;
use std::alloc::{AllocError, Global};
use std::marker::Model;
use wkt_access::Dimension;
use wkt_flat::copies::{CopiedPart, copies};

/// A multipolygon: polygons in order, and the dimension of the header.
#[derive(Debug, Drop)]
pub struct MultiPolygon<T> {
    polygons: Vec<Polygon<T>>,
    dim: Dimension,
}

impl<T> Model for MultiPolygon<T> {
    ghost use Rattle.wkt_types.specs.Held.{Held};
    ghost use Rattle.wkt_types.specs.declared.coord.Coord.{Coord};

    ghost Value = { Held (Held (Held (Coord T))) };

    ghost view = { λ x. record { parts = x.polygons.items; dim = x.dim } };
}

impl<T> MultiPolygon<T> {
    ghost use Rattle.wkt_types.specs.Held.{IsMadeOf};

    /// A multipolygon of those polygons. Their dimensions aren't compared with its own.
    pub fn new(polygons: Vec<Polygon<T>>, dim: Dimension) -> Self
        ensures polygons { result.parts ≡ polygons.items }
        ensures dim { result.dim ≡ dim }
    {
        MultiPolygon { polygons, dim }
    }

    /// A multipolygon without polygons. It takes no memory.
    pub fn empty(alloc: Global, dim: Dimension) -> Self
        ensures polygons { result.parts ≡ [] }
        ensures dim { result.dim ≡ dim }
    {
        MultiPolygon {
            polygons: Vec::new(alloc),
            dim,
        }
    }

    /// The multipolygon of all polygons that the iterator gives, with the first one's dimension: None
    /// where it gives none.
    ///
    /// # Errors
    /// Out of memory.
    pub fn from_polygons<I: Iterator<Item = Polygon<T>> + Drop>(
        alloc: Global,
        polygons: I,
    ) -> Result<Option<Self>, AllocError>
    where
        T: Drop,
        requires can { I.can_next polygons }
        requires ends { IsFinite (I.remaining polygons) }
        ensures { IfOk result (λ r. WholeRun I.next_gives polygons (λ run. IsMadeOf (λ x. x.dim) run.items r)) }
    {
        let polygons: Vec<Polygon<T>> = polygons.collect(alloc)?;
        match polygons.first() {
            None => Ok(None),
            Some(first) => {
                let dim = first.dimension();
                Ok(Some(MultiPolygon { polygons, dim }))
            }
        }
    }

    /// The dimension of the header.
    pub fn dimension(&self) -> Dimension
        ensures { result ≡ self.now.dim }
    {
        self.dim
    }

    /// The polygons in order.
    pub fn polygons(&self) -> &[Polygon<T>]
        ensures { result.now ≡ self.now.parts }
    {
        self.polygons.as_slice()
    }

    /// The polygons and the dimension.
    pub fn into_inner(self) -> (Vec<Polygon<T>>, Dimension)
        ensures polygons { result.0.items ≡ self.parts }
        ensures dim { result.1 ≡ self.dim }
    {
        let MultiPolygon { polygons, dim } = self;
        (polygons, dim)
    }
}

impl<T: Copy + Drop> MultiPolygon<T> {
    /// An equal multipolygon.
    ///
    /// # Errors
    /// Out of memory.
    pub fn try_clone(&self, alloc: Global) -> Result<Self, AllocError>
        ensures { IfOk result (λ x. x ≡ self.now) }
    {
        Ok(MultiPolygon {
            polygons: copies(alloc, &self.polygons)?,
            dim: self.dim,
        })
    }
}

impl<T: Copy + Drop> CopiedPart for MultiPolygon<T> {
    fn copy(&self, alloc: Global) -> Result<Self, AllocError> {
        self.try_clone(alloc)
    }
}

impl<T: Copy + Drop> UnderHeader for MultiPolygon<T> {
    ghost use Rattle.wkt_types.specs.Canonical.{parts_under, polygon_under};

    ghost under = { parts_under polygon_under };

    fn put_under(&mut self, dim: Dimension) {
        put_each_under(&mut self.polygons, dim);
        self.dim = dim;
    }
}
