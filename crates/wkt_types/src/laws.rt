//! Laws of the definitions: each function does nothing, and its contract is the law.
ghost use Rattle.wkt_types.specs.Canonical.{CanonicalIsOne};

/// Two geometries become one by `into_canonical` exactly if their canonical values are equal, so exactly if
/// `wkt::same_geometry` holds of them. So `==` compares what is written of geometries, once they are
/// canonical.
pub fn canonical_is_one<T>()
    ensures { CanonicalIsOne T }
{}
