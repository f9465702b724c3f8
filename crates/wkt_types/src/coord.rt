//! Coordinates.
ghost use Rattle.std.specs.Prelude.{◌≡◌};

use crate::canonical::{UnderHeader, fourth_number, third_number};
use std::alloc::{AllocError, Global};
use wkt_access::Dimension;
use wkt_flat::copies::CopiedPart;

/// One coordinate: x and y, and z and m where they are there.
#[derive(Clone, Copy, Debug, Default, Drop)]
pub struct Coord<T> {
    /// The first number.
    pub x: T,
    /// The second number.
    pub y: T,
    /// The height, of XYZ and XYZM.
    pub z: Option<T>,
    /// The measure, the last number of XYM and XYZM.
    pub m: Option<T>,
}

impl<T> Coord<T> {
    ghost use Rattle.wkt_types.specs.Held.{coord_dim};

    /// The dimension by which of z and m are there.
    pub fn dimension(&self) -> Dimension
        ensures { result ≡ coord_dim self.now }
    {
        match (&self.z, &self.m) {
            (None, None) => Dimension::XY,
            (Some(_), None) => Dimension::XYZ,
            (None, Some(_)) => Dimension::XYM,
            (Some(_), Some(_)) => Dimension::XYZM,
        }
    }
}

impl<T: Copy + Drop> CopiedPart for Coord<T> {
    fn copy(&self, _alloc: Global) -> Result<Self, AllocError> {
        Ok(*self)
    }
}

impl<T: Copy + Drop> UnderHeader for Coord<T> {
    ghost use Rattle.wkt_types.specs.Canonical.{coord_under};

    ghost under = { coord_under };

    fn put_under(&mut self, dim: Dimension) {
        let (z, m) = match dim {
            Dimension::XY => (None, None),
            Dimension::XYZ => (third_number(self), None),
            Dimension::XYM => (None, third_number(self)),
            Dimension::XYZM => (third_number(self), fourth_number(self)),
        };
        self.z = z;
        self.m = m;
    }
}
