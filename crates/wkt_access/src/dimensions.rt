//! Which numbers a coordinate has.
#![tactic(auto)]

ghost use Rattle.std.specs.Prelude.{◌≡◌};
ghost use Rattle.wkt_access.specs.Shapes.{size_of};

/// The dimension of a text: which numbers each of its coordinates has.
///
/// The numbers stand in the order x, y, then z where there is one, then m where there is one.
/// In a text the kind word is followed by nothing, `Z`, `M` or `ZM` (OGC Simple Features).
#[derive(Clone, Copy, PartialEq, Eq, Hash, Debug, Default)]
pub enum Dimension {
    /// x and y.
    #[default]
    XY,
    /// x, y and a height z.
    XYZ,
    /// x, y and a measure m.
    XYM,
    /// x, y, a height z and a measure m.
    XYZM,
}

/// The dimension of a geometry that is accessed: which numbers a coordinate has, or at least how many.
#[derive(Clone, Copy, PartialEq, Eq, Hash, Debug)]
pub enum Dimensions {
    /// x and y.
    Xy,
    /// x, y and a height z.
    Xyz,
    /// x, y and a measure m.
    Xym,
    /// x, y, a height z and a measure m.
    Xyzm,
    /// A count of numbers whose meaning isn't said. Two, three and four are written as
    /// XY, XYZ and XYZM; any other count can't be written in a header.
    Unknown(usize),
}

impl Dimensions {
    /// How many numbers a coordinate has.
    ///
    /// `Dimensions::Xym.size()` is 3, and `Dimensions::Unknown(7).size()` is 7.
    pub fn size(self) -> usize
        ensures { result ≡ size_of self }
    {
        match self {
            Dimensions::Xy => 2,
            Dimensions::Xyz => 3,
            Dimensions::Xym => 3,
            Dimensions::Xyzm => 4,
            Dimensions::Unknown(n) => n,
        }
    }
}

impl From<Dimension> for Dimensions {
    ghost use Rattle.std.specs.Prelude.{◌≡◌};
    ghost use Rattle.wkt_access.specs.Shapes.{header_of};

    ghost from_gives = { λ dimension result. result ≡ header_of dimension };

    fn from(dimension: Dimension) -> Dimensions {
        match dimension {
            Dimension::XY => Dimensions::Xy,
            Dimension::XYZ => Dimensions::Xyz,
            Dimension::XYM => Dimensions::Xym,
            Dimension::XYZM => Dimensions::Xyzm,
        }
    }
}
