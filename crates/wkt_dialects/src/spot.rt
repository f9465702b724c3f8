//! Where an empty point may stand.
ghost use Rattle.std.specs.Prelude.{◌≡◌};
ghost use Rattle.wkt_num.specs.Bytes.{Open, Comma};
ghost use Rattle.wkt_dialects.specs.Dialects.{spot_behind, goes_on, dimensioned};

use wkt_access::Dimension;
use wkt_types::GeometryType;

/// Where a lexeme stands, as far as an empty point may be there.
#[derive(Clone, Copy)]
pub enum Spot {
    Elsewhere,
    /// Behind a header, or behind the kind word of one.
    Headed(GeometryType, Dimension),
    /// Where a member of a multipoint begins.
    Begins(Dimension),
    /// Elsewhere in a multipoint.
    Within(Dimension),
}

impl Spot {
    /// Behind a number, or any other lexeme.
    pub(crate) fn goes_on(self) -> Spot
        ensures { result ≡ goes_on self }
    {
        match self {
            Spot::Begins(dim) | Spot::Within(dim) => Spot::Within(dim),
            _ => Spot::Elsewhere,
        }
    }

    /// Behind a parenthesis that opens.
    pub(crate) fn opened(self) -> Spot
        ensures { result ≡ spot_behind self Open }
    {
        match self {
            Spot::Headed(GeometryType::MultiPoint, dim) => Spot::Begins(dim),
            _ => self.goes_on(),
        }
    }

    /// Behind a comma.
    pub(crate) fn parted(self) -> Spot
        ensures { result ≡ spot_behind self Comma }
    {
        match self {
            Spot::Begins(dim) | Spot::Within(dim) => Spot::Begins(dim),
            _ => self.goes_on(),
        }
    }

    /// Behind a word that is no kind word, and perhaps one of a dimension.
    pub(crate) fn dimensioned(self, dimension: Option<Dimension>) -> Spot
        ensures { result ≡ dimensioned self dimension }
    {
        match (self, dimension) {
            (Spot::Headed(kind, _), Some(dim)) => Spot::Headed(kind, dim),
            _ => self.goes_on(),
        }
    }
}
