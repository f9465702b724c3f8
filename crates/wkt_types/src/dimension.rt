//! Dimensions compared.
ghost use Rattle.std.specs.Prelude.{◌≡◌, ◌&&◌};
ghost use Rattle.wkt_types.specs.Equal.{dim_eq};

use wkt_access::Dimension;

/// Whether the parts were the same, and two dimensions are.
pub(crate) fn and_same(parts: bool, a: Dimension, b: Dimension) -> bool
    ensures { result ≡ (parts && dim_eq a b) }
{
    parts && is_same(a, b)
}

/// Whether two dimensions are the same.
pub fn is_same(a: Dimension, b: Dimension) -> bool
    ensures { result ≡ dim_eq a b }
{
    matches!(
        (a, b),
        (Dimension::XY, Dimension::XY)
            | (Dimension::XYZ, Dimension::XYZ)
            | (Dimension::XYM, Dimension::XYM)
            | (Dimension::XYZM, Dimension::XYZM)
    )
}
