//! Points.
ghost use Rattle.std.specs.Prelude.{◌≡◌, MatchOption, Some, None};

use crate::canonical::UnderHeader;
use crate::coord::Coord;
use std::alloc::{AllocError, Global};
use std::marker::Model;
use wkt_access::Dimension;
use wkt_flat::copies::CopiedPart;

/// A point: one coordinate or none, and the dimension of its header.
#[derive(Clone, Copy, Debug, Drop)]
pub struct Point<T> {
    pub(crate) coord: Option<Coord<T>>,
    dim: Dimension,
}

impl<T> Model for Point<T> {
    ghost use Rattle.wkt_types.specs.Held.{HeldPoint};
    ghost use Rattle.wkt_types.specs.declared.coord.Coord.{Coord};

    ghost Value = { HeldPoint (Coord T) };

    ghost view = { λ p. record { coord = p.coord; dim = p.dim } };

    ghost inverse = { λ p. record { coord = p.coord; dim = p.dim } };
}

impl<T> Point<T> {
    ghost use Rattle.wkt_types.specs.Held.{coord_dim};

    /// A point of that coordinate, or of none. The dimension isn't compared with the coordinate's.
    pub fn new(coord: Option<Coord<T>>, dim: Dimension) -> Self
        ensures coord { result.coord ≡ coord }
        ensures dim { result.dim ≡ dim }
    {
        Point { coord, dim }
    }

    /// A point of that coordinate, with the coordinate's dimension.
    pub fn from_coord(coord: Coord<T>) -> Self
        ensures coord { result.coord ≡ Some coord }
        ensures dim { result.dim ≡ coord_dim coord }
    {
        let dim = coord.dimension();
        Point {
            coord: Some(coord),
            dim,
        }
    }

    /// A point without a coordinate.
    pub fn empty(dim: Dimension) -> Self
        ensures coord { result.coord ≡ None }
        ensures dim { result.dim ≡ dim }
    {
        Point { coord: None, dim }
    }

    /// The dimension of the header.
    pub fn dimension(&self) -> Dimension
        ensures { result ≡ self.now.dim }
    {
        self.dim
    }

    /// The coordinate, if there is one.
    pub fn coord(&self) -> Option<&Coord<T>>
        ensures { MatchOption result (self.now.coord ≡ None) (λ c. self.now.coord ≡ Some c.now) }
    {
        self.coord.as_ref()
    }

    /// The coordinate and the dimension.
    pub fn into_inner(self) -> (Option<Coord<T>>, Dimension)
        ensures coord { result.0 ≡ self.coord }
        ensures dim { result.1 ≡ self.dim }
    {
        let Point { coord, dim } = self;
        (coord, dim)
    }
}

impl<T: Default> Default for Point<T> {
    ghost use Rattle.wkt_access.specs.declared.dimensions.Dimension.TheVariants.{XY};

    ghost is_default = { λ p. (p.coord ≡ None) × (p.dim ≡ XY) };

    /// A point of two dimensions without a coordinate.
    fn default() -> Self {
        Point::empty(Dimension::XY)
    }
}

impl<T: Copy + Drop> CopiedPart for Point<T> {
    fn copy(&self, _alloc: Global) -> Result<Self, AllocError> {
        Ok(*self)
    }
}

impl<T: Copy + Drop> UnderHeader for Point<T> {
    ghost use Rattle.wkt_types.specs.Canonical.{point_under};

    ghost under = { point_under };

    fn put_under(&mut self, dim: Dimension) {
        if let Some(mut coord) = self.coord {
            coord.put_under(dim);
            self.coord = Some(coord);
        }
        self.dim = dim;
    }
}
