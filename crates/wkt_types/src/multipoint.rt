//! Multipoints.
ghost use Rattle.std.specs.Prelude.{◌≡◌, [], IfOk, Some};
ghost use Rattle.std.specs.Iterator.{IsFinite};
ghost use Rattle.std.specs.Iterator.Runs.{WholeRun};

use crate::canonical::{UnderHeader, put_each_under};
use crate::point::Point;
use std::alloc::{AllocError, Global};
use std::marker::Model;
use wkt_access::Dimension;
use wkt_flat::copies::{CopiedPart, copies};

/// A multipoint: points in order, and the dimension of the header.
#[derive(Debug, Drop)]
pub struct MultiPoint<T> {
    points: Vec<Point<T>>,
    dim: Dimension,
}

impl<T> Model for MultiPoint<T> {
    ghost use Rattle.wkt_types.specs.Held.{Held, HeldPoint};
    ghost use Rattle.wkt_types.specs.declared.coord.Coord.{Coord};

    ghost Value = { Held (HeldPoint (Coord T)) };

    ghost view = { λ x. record { parts = x.points.items; dim = x.dim } };
}

impl<T> MultiPoint<T> {
    ghost use Rattle.wkt_types.specs.Held.{IsMadeOf};

    /// A multipoint of those points. Their dimensions aren't compared with its own.
    pub fn new(points: Vec<Point<T>>, dim: Dimension) -> Self
        ensures points { result.parts ≡ points.items }
        ensures dim { result.dim ≡ dim }
    {
        MultiPoint { points, dim }
    }

    /// A multipoint without points. It takes no memory.
    pub fn empty(alloc: Global, dim: Dimension) -> Self
        ensures points { result.parts ≡ [] }
        ensures dim { result.dim ≡ dim }
    {
        MultiPoint {
            points: Vec::new(alloc),
            dim,
        }
    }

    /// The multipoint of all points that the iterator gives, with the first one's dimension: None
    /// where it gives none.
    ///
    /// # Errors
    /// Out of memory.
    pub fn from_points<I: Iterator<Item = Point<T>> + Drop>(
        alloc: Global,
        points: I,
    ) -> Result<Option<Self>, AllocError>
    where
        T: Drop,
        requires can { I.can_next points }
        requires ends { IsFinite (I.remaining points) }
        ensures { IfOk result (λ r. WholeRun I.next_gives points (λ run. IsMadeOf (λ x. x.dim) run.items r)) }
    {
        let points: Vec<Point<T>> = points.collect(alloc)?;
        match points.first() {
            None => Ok(None),
            Some(first) => {
                let dim = first.dimension();
                Ok(Some(MultiPoint { points, dim }))
            }
        }
    }

    /// The dimension of the header.
    pub fn dimension(&self) -> Dimension
        ensures { result ≡ self.now.dim }
    {
        self.dim
    }

    /// The points in order.
    pub fn points(&self) -> &[Point<T>]
        ensures { result.now ≡ self.now.parts }
    {
        self.points.as_slice()
    }

    /// The points and the dimension.
    pub fn into_inner(self) -> (Vec<Point<T>>, Dimension)
        ensures points { result.0.items ≡ self.parts }
        ensures dim { result.1 ≡ self.dim }
    {
        let MultiPoint { points, dim } = self;
        (points, dim)
    }
}

impl<T: Copy + Drop> MultiPoint<T> {
    /// An equal multipoint.
    ///
    /// # Errors
    /// Out of memory.
    pub fn try_clone(&self, alloc: Global) -> Result<Self, AllocError>
        ensures { IfOk result (λ x. x ≡ self.now) }
    {
        Ok(MultiPoint {
            points: copies(alloc, &self.points)?,
            dim: self.dim,
        })
    }
}

impl<T: Copy + Drop> CopiedPart for MultiPoint<T> {
    fn copy(&self, alloc: Global) -> Result<Self, AllocError> {
        self.try_clone(alloc)
    }
}

impl<T: Copy + Drop> UnderHeader for MultiPoint<T> {
    ghost use Rattle.wkt_types.specs.Canonical.{parts_under, point_under};

    ghost under = { parts_under point_under };

    fn put_under(&mut self, dim: Dimension) {
        put_each_under(&mut self.points, dim);
        self.dim = dim;
    }
}
