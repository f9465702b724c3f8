//! Line strings.
ghost use Rattle.std.specs.Prelude.{◌≡◌, [], IfOk, Some};
ghost use Rattle.std.specs.Iterator.{IsFinite};
ghost use Rattle.std.specs.Iterator.Runs.{WholeRun};

use crate::canonical::{UnderHeader, put_each_under};
use crate::coord::Coord;
use std::alloc::{AllocError, Global};
use std::marker::Model;
use wkt_access::Dimension;
use wkt_flat::copies::{CopiedPart, copies};

/// A line string: coordinates in order, and the dimension of the header.
#[derive(Debug, Drop)]
pub struct LineString<T> {
    coords: Vec<Coord<T>>,
    dim: Dimension,
}

impl<T> Model for LineString<T> {
    ghost use Rattle.wkt_types.specs.Held.{Held};
    ghost use Rattle.wkt_types.specs.declared.coord.Coord.{Coord};

    ghost Value = { Held (Coord T) };

    ghost view = { λ l. record { parts = l.coords.items; dim = l.dim } };
}

impl<T> LineString<T> {
    ghost use Rattle.wkt_types.specs.Held.{coord_dim};
    ghost use Rattle.wkt_types.specs.Held.{IsMadeOf};

    /// A line string of those coordinates. Their dimensions aren't compared with its own.
    pub fn new(coords: Vec<Coord<T>>, dim: Dimension) -> Self
        ensures coords { result.parts ≡ coords.items }
        ensures dim { result.dim ≡ dim }
    {
        LineString { coords, dim }
    }

    /// A line string without coordinates. It takes no memory.
    pub fn empty(alloc: Global, dim: Dimension) -> Self
        ensures coords { result.parts ≡ [] }
        ensures dim { result.dim ≡ dim }
    {
        LineString {
            coords: Vec::new(alloc),
            dim,
        }
    }

    /// The line string of all coordinates that the iterator gives, with the first one's dimension:
    /// None where it gives none.
    ///
    /// # Errors
    /// Out of memory.
    pub fn from_coords<I: Iterator<Item = Coord<T>> + Drop>(
        alloc: Global,
        coords: I,
    ) -> Result<Option<Self>, AllocError>
    where
        T: Drop,
        requires can { I.can_next coords }
        requires ends { IsFinite (I.remaining coords) }
        ensures { IfOk result (λ r. WholeRun I.next_gives coords (λ run. IsMadeOf coord_dim run.items r)) }
    {
        let coords: Vec<Coord<T>> = coords.collect(alloc)?;
        match coords.first() {
            None => Ok(None),
            Some(first) => {
                let dim = first.dimension();
                Ok(Some(LineString { coords, dim }))
            }
        }
    }

    /// The dimension of the header.
    pub fn dimension(&self) -> Dimension
        ensures { result ≡ self.now.dim }
    {
        self.dim
    }

    /// The coordinates in order.
    pub fn coords(&self) -> &[Coord<T>]
        ensures { result.now ≡ self.now.parts }
    {
        self.coords.as_slice()
    }

    /// The coordinates and the dimension.
    pub fn into_inner(self) -> (Vec<Coord<T>>, Dimension)
        ensures coords { result.0.items ≡ self.parts }
        ensures dim { result.1 ≡ self.dim }
    {
        let LineString { coords, dim } = self;
        (coords, dim)
    }
}

impl<T: Copy + Drop> LineString<T> {
    /// An equal line string.
    ///
    /// # Errors
    /// Out of memory.
    pub fn try_clone(&self, alloc: Global) -> Result<Self, AllocError>
        ensures { IfOk result (λ l. l ≡ self.now) }
    {
        Ok(LineString {
            coords: copies(alloc, &self.coords)?,
            dim: self.dim,
        })
    }
}

impl<T: Copy + Drop> CopiedPart for LineString<T> {
    fn copy(&self, alloc: Global) -> Result<Self, AllocError> {
        self.try_clone(alloc)
    }
}

impl<T: Copy + Drop> UnderHeader for LineString<T> {
    ghost use Rattle.wkt_types.specs.Canonical.{line_under};

    ghost under = { line_under };

    fn put_under(&mut self, dim: Dimension) {
        put_each_under(&mut self.coords, dim);
        self.dim = dim;
    }
}
